//! What HTTP asks of a registry, besides what scripts ask of it.
ghost use Rattle.std.specs.Prelude.{◌≡◌, map, option_copied, option_map, false, length};
ghost use Rattle.pid_ident.specs.PathTexts.{path_text};
ghost use Rattle.pid_file.specs.Printing.{print};
ghost use Rattle.pid_moderation.specs.BeforeFile.{import_of};
ghost use Rattle.pid_moderation.specs.ChangePages.{changes_in, page_of, start_text};
ghost use Rattle.pid_moderation.specs.Children.{children_of};
ghost use Rattle.pid_moderation.specs.Files.{file_reading};
ghost use Rattle.pid_moderation.specs.ItemPairs.{pair_of};
ghost use Rattle.pid_moderation.specs.PendingPages.{pending_in, told_of};
ghost use Rattle.pid_moderation.specs.QueuePages.{queue_in, queued_of};
ghost use Rattle.pid_moderation.specs.RegistryStatus.{registry_status_of, status_of_registry};
ghost use Rattle.pid_moderation.specs.RemarkPages.{remark_page_in, remark_page_of};
ghost use Rattle.pid_moderation.specs.SubmissionPages.{submission_page_of};
ghost use Rattle.pid_service_laws.specs.Searching.{sought_page};
ghost use Rattle.pid_moderation.specs.Submissions.{discussion_in, discussion_of};
ghost use Rattle.pid_moderation.specs.Views.{items_of, rank_of, views_of};
ghost use Rattle.pid_moderation.specs.Writes.{tree_of};
ghost use Rattle.pid_service_laws.specs.Imports.{AnswersFailed, HasRead, InputIsRead, ObeysFile};
ghost use Rattle.pid_service_laws.specs.Questions.{IsAnswered, IsAnsweredIfThere};

use crate::faults::ImportEnd;
use crate::registry_calls::RegistryCalls;
use pid_ident::{Account, Input, Key, Path};
use pid_moderation::{
    Changes, Discussion, Item, PAGE, Pending, Queued, Rank, Refusal, RemarkPage, Reply, Status,
    SubmissionPage,
};

/// A registry under moderation, as HTTP asks it: by questions, and by `import_from`, which obeys an
/// import whose file comes as an input.
///
/// Each question is answered by the history that the registry shows, while its store returns what
/// was written to it. It is refused if memory runs out, or if the store or the registry has failed.
pub trait RegistryQueries: RegistryCalls {
    /// The rank of an account, where there is one.
    fn rank(&mut self, who: &Account) -> Result<Option<Rank>, Refusal>
        ensures { IsAnswered Self.showing Self.is_live self.old self.new result
            (λ h rank. rank ≡ rank_of who.now h) };

    /// The items directly below a path in the canonical order; without a path the vendors and the
    /// classes.
    fn children(&mut self, above: Option<Path>) -> Result<Vec<Item>, Refusal>
        ensures { IsAnswered Self.showing Self.is_live self.old self.new result
            (λ h items. map pair_of items.items
            ≡ children_of (option_map path_text above) (items_of h)) };

    /// The submission with the number, and the remarks on it. `NoSubmission` if there is none.
    fn submission(&mut self, number: u32) -> Result<Discussion, Refusal>
        ensures { IsAnsweredIfThere Self.showing Self.is_live self.old self.new result
            (λ h. discussion_in (views_of h) number) discussion_of };

    /// The submission with the number, how many remarks there are on it, and a page of them: those
    /// whose places are above `after`, where the first remark has the place 1. `NoSubmission` if
    /// there is none.
    fn remarks(&mut self, number: u32, after: u32) -> Result<RemarkPage, Refusal>
        ensures { IsAnsweredIfThere Self.showing Self.is_live self.old self.new result
            (λ h. remark_page_in PAGE number after (views_of h)) remark_page_of };

    /// A page of the submissions for a path and of an author, where one is named, the latest first,
    /// whose numbers are below `before`, of which 0 stands for no bound.
    fn submissions(
        &mut self,
        path: Option<&Path>,
        author: Option<&Account>,
        before: u32,
    ) -> Result<SubmissionPage, Refusal>
        ensures { IsAnswered Self.showing Self.is_live self.old self.new result
            (λ h page. submission_page_of page ≡ sought_page (record {
              path = option_copied path.entry;
              author = option_copied author.entry;
              before = before;
            }) (views_of h)) };

    /// A page of the pending submissions whose numbers are above a number.
    fn pending(&mut self, after: u32) -> Result<Vec<Pending>, Refusal>
        ensures { IsAnswered Self.showing Self.is_live self.old self.new result
            (λ h page. map told_of page.items ≡ pending_in PAGE after (views_of h)) };

    /// A page of the same, each with the name that its path has today and how many remarks it has.
    fn queue(&mut self, after: u32) -> Result<Vec<Queued>, Refusal>
        ensures { IsAnswered Self.showing Self.is_live self.old self.new result
            (λ h queue. map queued_of queue.items ≡ queue_in PAGE after (views_of h)) };

    /// A page of the items that were added or renamed after a revision, those after a path if one is
    /// named; and the revision of today.
    fn changes(&mut self, since: u64, after: Option<&Path>) -> Result<Changes, Refusal>
        ensures { IsAnswered Self.showing Self.is_live self.old self.new result
            (λ h changes. page_of changes
            ≡ changes_in PAGE since (start_text (option_copied after.entry)) (views_of h)) };

    /// How much it holds.
    fn status(&mut self) -> Result<Status, Refusal>
        ensures { IsAnswered Self.showing Self.is_live self.old self.new result
            (λ h status. registry_status_of status ≡ status_of_registry h) };

    /// How many bytes `export` would write.
    fn export_length(&mut self) -> Result<u64, Refusal>
        ensures { IsAnswered Self.showing Self.is_live self.old self.new result
            (λ h n. n ≡ length (print (tree_of h))) };

    /// Obeys an import whose file is in an input, which is read to its end, or to one byte more
    /// than a file may have, whatever the answer is; `Body` exactly if the input failed before
    /// that.
    fn import_from<I: Input>(
        &mut self,
        account: Account,
        key: Option<Key>,
        input: &mut I,
    ) -> Result<Reply, ImportEnd>
        ensures failed { Self.is_live self.old ≡ false
            → AnswersFailed result × (self.new ≡ self.old) }
        // An import of what was read of the input is obeyed.
        ensures obeyed { HasRead result (I.to_come input.old) (I.to_come input.new) (λ text.
            ObeysFile Self.showing Self.is_live self.old self.new result
            (import_of account key (file_reading text))) }
        ensures reads { InputIsRead I.Input input.old input.new result };
}
