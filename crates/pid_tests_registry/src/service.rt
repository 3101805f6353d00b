//! Tests of the registry, by public calls alone, over databases in memory.
mod asking;
mod commands;
mod imports;
mod kept_names;
mod limits;
mod lookups;
mod rows;
mod stops;
