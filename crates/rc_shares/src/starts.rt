//! Where the shares of workers begin.
ghost use Rattle.std.specs.Prelude.{◌≡◌, ◌<◌, ◌≤◌};
ghost use Rattle.rc_outside.specs.Shares.{share_start};

/// The item with which a worker's share begins; that of the worker behind the last one is the number of items.
pub fn share_start(items: usize, workers: u32, worker: u32) -> usize
    requires some { 0 < workers }
    requires worker { worker ≤ workers }
    ensures { result ≡ share_start items workers worker }
{
    let workers = workers as usize;
    let worker = worker as usize;
    items / workers * worker + items % workers * worker / workers
}
