//! Tests of a registry with a journal in front of it, over memory, whose file or input fails. They
//! call public functions alone; `tests/test_journal.py` has what a journal says and leads to.
mod consulting;
mod faults;
mod paper;
