//! A registry with a journal in front of it as HTTP asks it. Questions go past the journal.
use crate::file::JournalFile;
use crate::importing::read_bytes;
use crate::journaled::Journaled;
use pid_file::SkipEnd;
use pid_ident::{Account, Input, Key, Path};
use pid_moderation::{
    Changes, Discussion, Item, Pending, Queued, Rank, Refusal, RemarkPage, Reply, Status,
    SubmissionPage,
};
use pid_service_laws::{ImportEnd, RegistryQueries};

impl<R: RegistryQueries, J: JournalFile> RegistryQueries for Journaled<R, J> {
    fn rank(&mut self, who: &Account) -> Result<Option<Rank>, Refusal> {
        if self.failed {
            return Err(Refusal::Failed);
        }
        self.registry.rank(who)
    }

    fn children(&mut self, above: Option<Path>) -> Result<Vec<Item>, Refusal> {
        if self.failed {
            return Err(Refusal::Failed);
        }
        self.registry.children(above)
    }

    fn submission(&mut self, number: u32) -> Result<Discussion, Refusal> {
        if self.failed {
            return Err(Refusal::Failed);
        }
        self.registry.submission(number)
    }

    fn remarks(&mut self, number: u32, after: u32) -> Result<RemarkPage, Refusal> {
        if self.failed {
            return Err(Refusal::Failed);
        }
        self.registry.remarks(number, after)
    }

    fn submissions(
        &mut self,
        path: Option<&Path>,
        author: Option<&Account>,
        before: u32,
    ) -> Result<SubmissionPage, Refusal> {
        if self.failed {
            return Err(Refusal::Failed);
        }
        self.registry.submissions(path, author, before)
    }

    fn pending(&mut self, after: u32) -> Result<Vec<Pending>, Refusal> {
        if self.failed {
            return Err(Refusal::Failed);
        }
        self.registry.pending(after)
    }

    fn queue(&mut self, after: u32) -> Result<Vec<Queued>, Refusal> {
        if self.failed {
            return Err(Refusal::Failed);
        }
        self.registry.queue(after)
    }

    fn changes(&mut self, since: u64, after: Option<&Path>) -> Result<Changes, Refusal> {
        if self.failed {
            return Err(Refusal::Failed);
        }
        self.registry.changes(since, after)
    }

    fn status(&mut self) -> Result<Status, Refusal> {
        if self.failed {
            return Err(Refusal::Failed);
        }
        self.registry.status()
    }

    fn export_length(&mut self) -> Result<u64, Refusal> {
        if self.failed {
            return Err(Refusal::Failed);
        }
        self.registry.export_length()
    }

    fn import_from<I: Input>(
        &mut self,
        account: Account,
        key: Option<Key>,
        input: &mut I,
    ) -> Result<Reply, ImportEnd> {
        let bytes = match read_bytes(self.alloc, input) {
            Ok(Some(bytes)) => bytes,
            Ok(None) => {
                let refusal = self.unless_failed(Refusal::Memory);
                return Err(ImportEnd::Refused(refusal));
            }
            Err(SkipEnd::TooLong) => {
                let refusal = self.unless_failed(Refusal::BadText);
                return Err(ImportEnd::Refused(refusal));
            }
            Err(SkipEnd::ReadFault) => return Err(ImportEnd::Body),
        };
        match self.import_bytes(account, key, bytes) {
            Ok(reply) => Ok(reply),
            Err(refusal) => Err(ImportEnd::Refused(refusal)),
        }
    }
}
