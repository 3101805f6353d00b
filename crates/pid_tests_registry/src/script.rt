//! Tests of scripts over a registry in memory, whose reader or writer fails, and over one that
//! refuses. They call public functions alone; `tests/test_scripts.py` has what a script is answered,
//! `tests/test_stops.py` scripts over a disk that stops.
mod chunks;
mod faults;
mod running;
mod stopping;
