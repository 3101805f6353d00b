//! What HTTP asks of the registry of this crate: each call, with all that it promises.
ghost use Rattle.std.specs.Prelude.{◌≡◌, false, length, map, option_copied, option_map};
ghost use Rattle.pid_ident.specs.PathTexts.{path_text};
ghost use Rattle.pid_file.specs.Printing.{print};
ghost use Rattle.pid_moderation.specs.BeforeFile.{import_of};
ghost use Rattle.pid_moderation.specs.ChangePages.{changes_in, page_of, start_text};
ghost use Rattle.pid_moderation.specs.Children.{children_of};
ghost use Rattle.pid_moderation.specs.Files.{file_reading};
ghost use Rattle.pid_moderation.specs.ItemPairs.{pair_of};
ghost use Rattle.pid_moderation.specs.PendingPages.{pending_in, told_of};
ghost use Rattle.pid_moderation.specs.QueuePages.{queue_in, queued_of};
ghost use Rattle.pid_moderation.specs.RegistryStatus.{registry_status_of, status_of_registry};
ghost use Rattle.pid_moderation.specs.RemarkPages.{remark_page_in, remark_page_of};
ghost use Rattle.pid_moderation.specs.SubmissionPages.{submission_page_of};
ghost use Rattle.pid_moderation.specs.Submissions.{discussion_in, discussion_of};
ghost use Rattle.pid_moderation.specs.Views.{items_of, rank_of, views_of};
ghost use Rattle.pid_moderation.specs.Writes.{tree_of};
ghost use Rattle.pid_service_laws.specs.Imports.{AnswersFailed, HasRead, InputIsRead, ObeysFile};
ghost use Rattle.pid_service_laws.specs.Searching.{sought_page};
ghost use Rattle.pid_service.specs.Asking.{Answers, AnswersIfThere};
ghost use Rattle.pid_service.specs.Importing.{EndLasts};
ghost use Rattle.pid_service.specs.Sessions.{showing as registry_showing};
ghost use Rattle.pid_service.specs.Registries.{is_live as lives};

use crate::changes::{keep_page, known_page};
use crate::importing::{answer_past, import_command};
use crate::items_text::{ItemsText, items_text};
use crate::pending::{pending_by, queue_by};
use crate::reading::fault_as_refusal;
use crate::registry::Registry;
use crate::registry_status::status_by;
use pid_ident::{Account, Input, Key, Path};
use pid_moderation::{
    Changes, Discussion, Item, PAGE, Pending, Queued, Rank, Refusal, RemarkPage, Reply, Status,
    SubmissionPage,
};
use pid_service_laws::{ImportEnd, RegistryQueries};
use pid_tables::{WritableDatabase, refusal_of};

impl<C: WritableDatabase + Drop> RegistryQueries for Registry<C> {
    fn rank(&mut self, who: &Account) -> Result<Option<Rank>, Refusal>
        ensures { Answers C.Database self.old self.new result
            (λ h rank. rank ≡ rank_of who.now h) }
    {
        if !self.live {
            return Err(Refusal::Failed);
        }
        fault_as_refusal(self.tables.rank(who.as_str()))
    }

    /// The canonical order puts the generic subsystems of a vendor after its devices. The vendors
    /// and the classes are kept in memory until one of them is written. The others are read from
    /// the text of all items, if that is kept. Below a path that has no item there is none.
    fn children(&mut self, above: Option<Path>) -> Result<Vec<Item>, Refusal>
        ensures { Answers C.Database self.old self.new result
            (λ h items. map pair_of items.items
            ≡ children_of (option_map path_text above) (items_of h)) }
    {
        if !self.live {
            return Err(Refusal::Failed);
        }
        if let Some(items) = self.kept.children(self.alloc, above) {
            self.kept.keep_top(self.alloc, above, items.as_slice());
            return Ok(items);
        }
        match self.tables.children(self.alloc, above) {
            Ok(items) => {
                self.kept.keep_top(self.alloc, above, items.as_slice());
                Ok(items)
            }
            Err(fault) => Err(refusal_of(fault)),
        }
    }

    fn submission(&mut self, number: u32) -> Result<Discussion, Refusal>
        ensures { AnswersIfThere C.Database self.old self.new result
            (λ h. discussion_in (views_of h) number) discussion_of }
    {
        if !self.live {
            return Err(Refusal::Failed);
        }
        match self.tables.submission(self.alloc, number) {
            Ok(Some(found)) => Ok(found),
            Ok(None) => Err(Refusal::NoSubmission),
            Err(fault) => Err(refusal_of(fault)),
        }
    }

    /// At most `PAGE` remarks. What comes before them is not read.
    fn remarks(&mut self, number: u32, after: u32) -> Result<RemarkPage, Refusal>
        ensures { AnswersIfThere C.Database self.old self.new result
            (λ h. remark_page_in PAGE number after (views_of h)) remark_page_of }
    {
        if !self.live {
            return Err(Refusal::Failed);
        }
        match self.tables.remark_page(self.alloc, number, after) {
            Ok(Some(page)) => Ok(page),
            Ok(None) => Err(Refusal::NoSubmission),
            Err(fault) => Err(refusal_of(fault)),
        }
    }

    /// At most `PAGE`, and where the next page begins; 0 at the end.
    ///
    /// The first call that names a path or an author reads those of all submissions, once, and keeps
    /// their numbers; after that a page costs what it has. If memory runs out for the numbers, or if
    /// they are more than 10,000,000, each page is found by a walk.
    fn submissions(
        &mut self,
        path: Option<&Path>,
        author: Option<&Account>,
        before: u32,
    ) -> Result<SubmissionPage, Refusal>
        ensures { Answers C.Database self.old self.new result
            (λ h page. submission_page_of page ≡ sought_page (record {
              path = option_copied path.entry;
              author = option_copied author.entry;
              before = before;
            }) (views_of h)) }
    {
        match self.keep_numbers(path.is_some() || author.is_some()) {
            Ok(()) => fault_as_refusal(
                self.tables
                    .page_by(self.alloc, &self.kept.numbers, path, author, before),
            ),
            Err(refusal) => Err(refusal),
        }
    }

    /// At most `PAGE`, rising: from 0 on, and then from the last number of a page, the pages go
    /// through all that are pending.
    ///
    /// The first call goes through all submissions, once, and keeps the numbers of those that are
    /// pending; after that a page costs what it has, whatever was decided. If memory runs out for
    /// the numbers, or if they are more than 10,000,000, each page is found by a walk.
    fn pending(&mut self, after: u32) -> Result<Vec<Pending>, Refusal>
        ensures { Answers C.Database self.old self.new result
            (λ h page. map told_of page.items ≡ pending_in PAGE after (views_of h)) }
    {
        match self.keep_pending() {
            Ok(()) => fault_as_refusal(pending_by(
                &mut self.tables,
                self.alloc,
                &self.kept.pending,
                after,
            )),
            Err(refusal) => Err(refusal),
        }
    }

    fn queue(&mut self, after: u32) -> Result<Vec<Queued>, Refusal>
        ensures { Answers C.Database self.old self.new result
            (λ h queue. map queued_of queue.items ≡ queue_in PAGE after (views_of h)) }
    {
        match self.keep_pending() {
            Ok(()) => fault_as_refusal(queue_by(
                &mut self.tables,
                self.alloc,
                &self.kept.pending,
                after,
            )),
            Err(refusal) => Err(refusal),
        }
    }

    /// In the canonical order, at most `PAGE`: each with its path, its name and the number of its
    /// last change. From no path on, and then from the last path of a page, the pages go through all
    /// of them. Items that were removed are left out. With them the revision at which they were
    /// read; if `since` is not below it, the items are not looked at.
    ///
    /// A first page that is not full is kept in memory until an import, if memory is there for it:
    /// then no later question with the same number or a greater one reads the items. An item that a
    /// command writes has its place there. If the page gets full, what changed first is dropped.
    fn changes(&mut self, since: u64, after: Option<&Path>) -> Result<Changes, Refusal>
        ensures { Answers C.Database self.old self.new result
            (λ h changes. page_of changes
            ≡ changes_in PAGE since (start_text (option_copied after.entry)) (views_of h)) }
    {
        if !self.live {
            return Err(Refusal::Failed);
        }
        let start = after.copied();
        match self.tables.revision() {
            Err(fault) => Err(refusal_of(fault)),
            Ok(revision) => {
                let kept = &self.kept.changes;
                if let Some(items) = known_page(self.alloc, kept, revision, since, start) {
                    return Ok(Changes { revision, items });
                }
                match self.tables.changes_page(self.alloc, since, after) {
                    Ok(changes) => {
                        let page = changes.items.as_slice();
                        keep_page(self.alloc, &mut self.kept.changes, since, start, page);
                        Ok(changes)
                    }
                    Err(fault) => Err(refusal_of(fault)),
                }
            }
        }
    }

    /// The numbers of what is pending and of accounts are kept in memory once they were read; the
    /// other counts are in the tables.
    fn status(&mut self) -> Result<Status, Refusal>
        ensures { Answers C.Database self.old self.new result
            (λ h status. registry_status_of status ≡ status_of_registry h) }
    {
        match self.keep_pending() {
            Ok(()) => match status_by(
                &mut self.tables,
                self.alloc,
                &self.kept.pending,
                self.kept.accounts,
            ) {
                Ok(status) => {
                    self.kept.accounts = Some(status.accounts);
                    Ok(status)
                }
                Err(fault) => Err(refusal_of(fault)),
            },
            Err(refusal) => Err(refusal),
        }
    }

    /// If the text is not kept in memory the items are read one by one, and it is kept from then on:
    /// up to 16,777,216 bytes, if memory is there for them.
    fn export_length(&mut self) -> Result<u64, Refusal>
        ensures { Answers C.Database self.old self.new result
            (λ h n. n ≡ length (print (tree_of h))) }
    {
        if !self.live {
            return Err(Refusal::Failed);
        }
        if let Some(text) = &self.kept.items.text {
            return Ok(text.bytes.len() as u64);
        }
        match items_text(&mut self.tables, self.alloc) {
            Ok(ItemsText { bytes, text }) => {
                self.kept.items.text = text;
                Ok(bytes)
            }
            Err(fault) => Err(refusal_of(fault)),
        }
    }

    /// The input is read to its end whatever the answer is, in reads of at most 4,096 bytes; if
    /// more than 4,194,304 bytes came, the file is `BadText` and no more is read. `Body` if the
    /// input failed: then the registry is as before, except for what it kept in memory.
    fn import_from<I: Input>(
        &mut self,
        account: Account,
        key: Option<Key>,
        input: &mut I,
    ) -> Result<Reply, ImportEnd>
        // A registry that has failed answers nothing else, unless the input failed.
        ensures failed { lives self.old ≡ false → AnswersFailed result × (self.new ≡ self.old) }
        // An import of what was read of the input is obeyed.
        ensures obeyed { HasRead result (I.to_come input.old) (I.to_come input.new) (λ text.
            ObeysFile (registry_showing C.Database) (λ r. lives r) self.old self.new result
            (import_of account key (file_reading text))) }
        ensures reads { InputIsRead I.Input input.old input.new result }
        ensures lasts { EndLasts C.Database self.old self.new (import_of account key) result }
    {
        if !self.live {
            return answer_past(false, Err(Refusal::Failed), input);
        }
        let command = import_command(self.alloc, account, key);
        let end = self.import_act(&command, input);
        drop(command);
        end
    }
}
