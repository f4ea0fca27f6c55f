//! How work is shared by workers: so many things, or fewer, are left to one, since to start a thread takes longer.

/// Of things that take some time.
pub(crate) const FEW: usize = 31;

/// Of things that take next to none.
pub(crate) const FEW_LIGHT: usize = 255;

/// Routes that take as long as to start a thread, many times over.
const FEW_ROUTES: usize = 10_000;

/// Of routers with routes, or paths, to so many destinations.
pub(crate) fn few_routers(destinations: usize) -> usize {
    FEW_ROUTES / destinations.max(1)
}
