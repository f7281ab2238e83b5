//! A unit: numbered records in a flash that it holds, shut, started or ready. No heap.
//! What each call decides and what may come of it is defined in crate decision, specs/Calls.antt and specs/Decisions.antt.
#![tactic(auto)]

use layout::plan::Plan;
use std::marker::PhantomData;

pub mod erase;
pub mod format;
pub mod progress;
pub mod read;
pub mod rest;
pub mod start;
pub mod write;

// That a call keeps the plan stands in its contract: it says what a call does, and no type can.

/// A unit at rest.
#[derive(Drop)]
pub struct Shut<F> {
    flash: F,
    plan: Plan,
}

/// A unit whose start was begun; `P` says how far it is.
#[derive(Drop)]
pub struct Begun<F, P> {
    flash: F,
    plan: Plan,
    // how many steps of its start were accepted
    accepted: u16,
    phase: PhantomData<P>,
}

/// The start goes on.
#[derive(Clone, Copy, PartialEq, Eq, Debug)]
pub struct Starting;

/// The start was ended.
#[derive(Clone, Copy, PartialEq, Eq, Debug)]
pub struct Running;

/// A unit in the midst of a start.
pub type Started<F> = Begun<F, Starting>;

/// A unit that reads and writes.
pub type Ready<F> = Begun<F, Running>;
