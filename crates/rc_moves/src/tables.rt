//! Each router's table, prepared for look-ups.
ghost use Rattle.std.specs.Prelude.{◌≡◌, All, IfOk, map};
ghost use Rattle.rc_fib.specs.Entries.{IsFib};
ghost use Rattle.rc_fib.specs.Forwarding.{resolved};
ghost use Rattle.rc_route.specs.Tables.{IsRouterState};
ghost use Rattle.rc_route.specs.declared.state.RouterState.{RouterState as Known};

use rc_base::Items;
use rc_fib::Fib;
use rc_route::{RouterState, State};
use rc_shares::{Makes, made_at_once};
use std::alloc::{AllocError, Global};
use std::collections::VecDeque;
use std::marker::Model;
use std::thread::Threads;

/// So many routes of all routers, or fewer, are left to one worker.
const FEW_ROUTES: usize = 20_000;

/// Each router's table in a state, prepared for look-ups.
pub struct Tables {
    fibs: Items<Fib>,
}

/// By a function of its own, so that what holds tables drops them by one call.
impl Drop for Tables {
    fn drop(self) {
        let Tables { fibs: _ } = self;
    }
}

impl Model for Tables {
    ghost use Rattle.std.specs.Prelude.{List};
    ghost use Rattle.rc_fib.specs.Entry.{Entry};
    ghost use Rattle.rc_moves.specs.Moves.{ArePrepared};

    ghost Value = { List (List Entry) };

    ghost view = { λ t. t.fibs };

    ghost invariant = { λ t. ArePrepared t.fibs };
}

/// The tables of a state, prepared for look-ups. What a router knows is dropped behind its table.
fn fibs_of(alloc: Global, state: State) -> Result<Items<Fib>, AllocError>
    requires { All IsRouterState state }
    ensures value { IfOk result (λ fibs. fibs ≡ map (λ (s : Known). resolved s.table) state) }
    ensures in_order { IfOk result (All IsFib) }
{
    let mut fibs = Vec::with_capacity(alloc, state.len())?;
    let mut left = VecDeque::from(state.into_vec());
    while let Some(known) = left.pop_front() {
        fibs.push(Fib::of(alloc, &known.table)?)?;
    }
    Ok(Items::from_vec(fibs))
}

/// How many routes the routers of a state know in all, or more than can be counted.
fn routes_in(state: &State) -> Option<usize> {
    let mut routes: usize = 0;
    for known in state.as_slice() {
        routes = routes.checked_add(known.table.len())?;
    }
    Some(routes)
}

/// Whether a state has so few routes that its tables are left to one worker: to start threads takes longer.
fn has_few_routes(state: &State) -> bool {
    match routes_in(state) {
        Some(routes) => routes <= FEW_ROUTES,
        None => false,
    }
}

/// The preparing of a table by itself.
#[derive(Drop)]
struct Preparing {}

impl Makes for Preparing {
    ghost use Rattle.rc_fib.specs.Entries.{IsFib};
    ghost use Rattle.rc_fib.specs.Forwarding.{resolved};
    ghost use Rattle.rc_route.specs.Tables.{IsRouterState};
    ghost use Rattle.rc_route.specs.declared.state.RouterState.{RouterState as Known};
    ghost use Rattle.rc_shares.specs.Making.{IsGiven};

    type Thing = RouterState;

    type Made = Fib;

    ghost fits = { λ s. IsRouterState };

    ghost made = { λ s. IsGiven (λ (k : Known). resolved k.table) IsFib };

    fn make(&self, alloc: Global, known: &RouterState) -> Result<Fib, AllocError> {
        Fib::of(alloc, &known.table)
    }
}

/// The tables of a state, prepared for look-ups by workers side by side, each a router's.
fn fibs_at_once<R: Threads + Sync>(
    rt: &R,
    alloc: Global,
    state: &State,
    workers: u32,
) -> Result<Items<Fib>, AllocError>
    requires { All IsRouterState state.now }
    ensures value { IfOk result (λ fibs. fibs ≡ map (λ (s : Known). resolved s.table) state.now) }
    ensures in_order { IfOk result (All IsFib) }
{
    let preparing = Preparing {};
    made_at_once(rt, alloc, &preparing, state.as_slice(), 1, workers)
}

impl Tables {
    ghost use Rattle.rc_moves.specs.Moves.{ArePrepared, route_count, tables_of};

    /// Tables that are prepared already. It takes no memory.
    pub fn prepared(fibs: Items<Fib>) -> Tables
        requires { ArePrepared fibs }
        ensures { result ≡ fibs }
    {
        Tables { fibs }
    }

    /// The tables of a state, which takes their place. It errs only where memory runs out.
    pub fn of(alloc: Global, state: State) -> Result<Tables, AllocError>
        requires { All IsRouterState state }
        ensures { IfOk result (λ tables. tables ≡ tables_of state) }
    {
        let fibs = fibs_of(alloc, state)?;
        Ok(Tables { fibs })
    }

    /// The same, by workers side by side; one, or none, is the caller alone, and so where there are few routes. The state is dropped behind
    /// them all.
    pub fn by_workers<R: Threads + Sync>(
        rt: &R,
        alloc: Global,
        state: State,
        workers: u32,
    ) -> Result<Tables, AllocError>
        requires { All IsRouterState state }
        ensures { IfOk result (λ tables. tables ≡ tables_of state) }
    {
        if workers <= 1 || has_few_routes(&state) {
            return Tables::of(alloc, state);
        }
        let fibs = fibs_at_once(rt, alloc, &state, workers)?;
        Ok(Tables { fibs })
    }

    /// How many routes they have in all. It errs only behind as many as can be counted.
    pub fn route_count(&self) -> Result<u64, AllocError>
        ensures { IfOk result (λ n. n ≡ route_count self.now) }
    {
        let mut count: u64 = 0;
        for fib in self.fibs.as_slice() {
            match count.checked_add(fib.len() as u64) {
                Some(more) => count = more,
                None => return Err(AllocError),
            }
        }
        Ok(count)
    }

    /// The prepared tables of all routers: each is in order, and each of their hops says where a packet goes.
    pub(crate) fn fibs(&self) -> &[Fib]
        ensures value { result.now ≡ self.now }
        ensures prepared { ArePrepared self.now }
    {
        self.fibs.as_slice()
    }
}
