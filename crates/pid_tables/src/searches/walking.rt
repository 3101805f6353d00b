//! A walk over all submissions.
ghost use Rattle.std.specs.Prelude.{◌≡◌, ◌++◌, map, take, IfErr, OnOk};
ghost use Rattle.std.specs.Option.{option_copied};
ghost use Rattle.pid_moderation.specs.SubmissionPages.{listed_of, sought_in};
ghost use Rattle.pid_tables.specs.Rows.Clauses.{Reads};
ghost use Rattle.pid_tables.specs.declared.rows.fault.TableFault.TheVariants as faults;

use crate::database::Database;
use crate::rows::TableFault;
use crate::tables::Tables;
use pid_ident::{Account, Path};
use pid_moderation::{Listed, PAGE};
use std::alloc::Global;

// Adds a page after the last one.
fn add_page(found: &mut Vec<Listed>, page: Vec<Listed>) -> Result<(), TableFault>
    ensures items { OnOk result (found.new.items ≡ found.old.items ++ page.items) }
    ensures full { IfErr result (λ fault. fault ≡ faults.Memory) }
{
    let mut page = page;
    match found.append(&mut page) {
        Ok(()) => Ok(()),
        Err(_) => Err(TableFault::Memory),
    }
}

impl<C: Database + Drop> Tables<C> {
    /// The submissions of a page, found by pages of the tables, which look at some of them each.
    pub(crate) fn walk(
        &mut self,
        alloc: Global,
        path: Option<&Path>,
        author: Option<&Account>,
        before: u32,
    ) -> Result<Vec<Listed>, TableFault>
        ensures { Reads C.state self.old.conn self.new.conn result
            (λ v found. map listed_of found.items ≡ take PAGE (sought_in (record {
              path = option_copied path.entry;
              author = option_copied author.entry;
              before = before;
            }) v)) }
    {
        crate::lists::laws::submissions_go_on(); // proof only
        let mut found = Vec::new(alloc);
        let mut next = before;
        for _ in 0..u32::MAX {
            let page = self.submissions_page(alloc, path, author, next)?;
            next = page.before;
            add_page(&mut found, page.submissions)?;
            if next == 0 {
                found.truncate(PAGE);
                return Ok(found);
            }
            if PAGE <= found.len() {
                found.truncate(PAGE);
                return Ok(found);
            }
        }
        Err(TableFault::Memory)
    }
}
