//! Tests of HTTP, by public functions alone: streams over a small handler and over a registry,
//! whose reader or writer fails, or which have few reads. What a server answers is tested on the
//! program (`tests/test_http_routes.py`, `tests/test_serving.py`).
pub mod account;
pub mod desk;
#[cfg(test)]
mod endings;
#[cfg(test)]
mod exchange;
#[cfg(test)]
mod faults;
#[cfg(test)]
mod moments;
#[cfg(test)]
mod streams;
