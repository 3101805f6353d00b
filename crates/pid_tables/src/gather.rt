//! The facts that a command is judged by.
ghost use Rattle.std.specs.Prelude.{◌≡◌, false, length};
ghost use Rattle.pid_ident.specs.PathReading.{parent_text};
ghost use Rattle.pid_ident.specs.PathTexts.{path_text};
ghost use Rattle.pid_moderation.specs.FactsOfViews.{
  RemarksOf,
  facts_at,
  named as named_in,
  looked_at,
  with_item_facts,
};
ghost use Rattle.pid_moderation.specs.Items.{name_at, holds_parent, has_children as are_children};
ghost use Rattle.pid_moderation.specs.Wants.{wanted_by};
ghost use Rattle.pid_moderation.specs.WellMade.{AllItems, HoldsParents};
ghost use Rattle.pid_tables.specs.Rows.Clauses.{Reads};
ghost use Rattle.pid_tables.specs.Steps.Gathering.{bare};

use crate::database::Database;
use crate::rows::TableFault;
use crate::rows::item::has_children;
use crate::rows::receipt::kept_reply;
use crate::rows::remark::remark_count;
use crate::rows::submission::standing;
use crate::tables::Tables;
use pid_ident::{Account, Key, Name, Path};
use pid_moderation::{Facts, NamedSubmission, Rank, Reply, Rows};
use std::alloc::Global;

// What is known of every command.
#[derive(Clone, Copy)]
struct KnownFacts {
    rank: Option<Rank>,
    kept: Option<Reply>,
    revision: u64,
}

// The facts of a command that is neither a comment nor an approval.
fn plain_facts(
    known: KnownFacts,
    who: Option<Rank>,
    submissions: u32,
    named: Option<NamedSubmission>,
) -> Facts
    ensures { result ≡ record (bare known) { who = who; submissions = submissions; named = named } }
{
    Facts {
        rank: known.rank,
        kept: known.kept,
        revision: known.revision,
        who,
        submissions,
        items: 0,
        named,
        remarks: 0,
        present: None,
        has_parent: false,
        has_children: false,
        file: None,
    }
}

// What the item at the path of a submission is, and how many items there are.
#[derive(Drop)]
struct ItemPlace {
    items: u32,
    present: Option<Name>,
    has_parent: bool,
    has_children: bool,
}

impl<C: Database + Drop> Tables<C> {
    fn submission_facts(
        &mut self,
        alloc: Global,
        number: u32,
    ) -> Result<Option<NamedSubmission>, TableFault>
        ensures { Reads C.state self.old.conn self.new.conn result (λ v named. named ≡ named_in v number) }
    {
        match standing(self, alloc, number) {
            Ok(None) => Ok(None),
            Ok(Some(found)) => Ok(Some(NamedSubmission {
                author: found.author,
                path: found.path,
                proposal: found.proposal,
                state: found.state,
            })),
            Err(fault) => Err(fault),
        }
    }

    fn has_parent(&mut self, alloc: Global, path: Path) -> Result<bool, TableFault>
        ensures { Reads C.state self.old.conn self.new.conn result
            (λ v there. there ≡ holds_parent (parent_text (path_text path)) v.items) }
    {
        match path.parent() {
            None => Ok(true),
            Some(parent) => match self.item(alloc, &parent) {
                Ok(name) => Ok(name.is_some()),
                Err(fault) => Err(fault),
            },
        }
    }

    fn place_at(&mut self, alloc: Global, path: Path) -> Result<ItemPlace, TableFault>
        ensures { Reads C.state self.old.conn self.new.conn result
            (λ v place. AllItems v.items → HoldsParents v.items
            → place ≡ record {
              items = length v.items;
              present = name_at (path_text path) v.items;
              has_parent = holds_parent (parent_text (path_text path)) v.items;
              has_children = are_children (path_text path) v.items;
            }) }
    {
        let items = self.items()?;
        let has_parent = self.has_parent(alloc, path)?;
        let has_children = has_children(self, alloc, path)?;
        match self.item(alloc, &path) {
            Ok(present) => Ok(ItemPlace {
                items,
                present,
                has_parent,
                has_children,
            }),
            Err(fault) => Err(fault),
        }
    }

    // The facts of a comment.
    fn remark_facts(
        &mut self,
        alloc: Global,
        number: u32,
        known: KnownFacts,
    ) -> Result<Facts, TableFault>
        ensures { Reads C.state self.old.conn self.new.conn result
            (λ v facts. facts ≡ looked_at v (RemarksOf number) (bare known)) }
    {
        let remarks = remark_count(self, number)?;
        match self.submission_facts(alloc, number) {
            Ok(named) => {
                let mut facts = plain_facts(known, None, 0, named);
                facts.remarks = remarks;
                Ok(facts)
            }
            Err(fault) => Err(fault),
        }
    }

    // The facts of an approval.
    fn item_facts(
        &mut self,
        alloc: Global,
        number: u32,
        known: KnownFacts,
    ) -> Result<Facts, TableFault>
        ensures { Reads C.state self.old.conn self.new.conn result
            (λ v facts. AllItems v.items → HoldsParents v.items
            → facts ≡ with_item_facts v (named_in v number) (bare known)) }
    {
        match self.submission_facts(alloc, number)? {
            None => Ok(plain_facts(known, None, 0, None)),
            Some(named) => match self.place_at(alloc, named.path) {
                Ok(place) => Ok(Facts {
                    rank: known.rank,
                    kept: known.kept,
                    revision: known.revision,
                    who: None,
                    submissions: 0,
                    items: place.items,
                    named: Some(named),
                    remarks: 0,
                    present: place.present,
                    has_parent: place.has_parent,
                    has_children: place.has_children,
                    file: None,
                }),
                Err(fault) => {
                    drop(named);
                    Err(fault)
                }
            },
        }
    }

    // The facts by what is known and the rows that are named.
    fn with_rows(
        &mut self,
        alloc: Global,
        rows: Rows<'_>,
        known: KnownFacts,
    ) -> Result<Facts, TableFault>
        ensures { Reads C.state self.old.conn self.new.conn result
            (λ v facts. AllItems v.items → HoldsParents v.items
            → facts ≡ looked_at v (wanted_by rows.entry) (bare known)) }
    {
        match rows {
            Rows::Rank(who) => {
                let who = self.rank(who.as_str())?;
                Ok(plain_facts(known, who, 0, None))
            }
            Rows::Submissions => {
                let submissions = self.submissions()?;
                Ok(plain_facts(known, None, submissions, None))
            }
            Rows::Submission(number) => {
                let named = self.submission_facts(alloc, number)?;
                Ok(plain_facts(known, None, 0, named))
            }
            Rows::Remarks(number) => self.remark_facts(alloc, number, known),
            Rows::Item(number) => self.item_facts(alloc, number, known),
            Rows::Nothing => Ok(plain_facts(known, None, 0, None)),
        }
    }

    /// The facts that a command of the account under the key is judged by: what `rows` names, as
    /// `needs` answers it, and no more. What the file of an import comes to is not among them.
    ///
    /// It holds of views whose items are a tree, as those of every history are.
    pub fn gather(
        &mut self,
        alloc: Global,
        account: &Account,
        key: &Option<Key>,
        rows: Rows<'_>,
    ) -> Result<Facts, TableFault>
        ensures { Reads C.state self.old.conn self.new.conn result
            (λ v facts. AllItems v.items → HoldsParents v.items
            → facts ≡ facts_at v account.now key.now (wanted_by rows.entry)) }
    {
        let rank = self.rank(account.as_str())?;
        let revision = self.revision()?;
        let kept = match key {
            Some(key) => kept_reply(self, account.as_str(), key.as_str()),
            None => Ok(None),
        };
        let kept = kept?;
        let known = KnownFacts {
            rank,
            kept,
            revision,
        };
        self.with_rows(alloc, rows, known)
    }
}
