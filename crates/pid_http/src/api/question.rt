//! What may be asked of a registry, and how a path and a query ask it.
ghost use Rattle.std.specs.Prelude.{◌≡◌, codes};
ghost use Rattle.std.specs.Option.{ok_or};
ghost use Rattle.pid_moderation.specs.Fields.{text_at as text_in, texts_of, value as value_in};
ghost use Rattle.pid_moderation.specs.Forms.{number_in};
ghost use Rattle.pid_lookup.specs.Fields.{lookup_from};
ghost use Rattle.pid_http.specs.Api.Questions.{account_said, after_said, lookup_asked, named_path};
ghost use Rattle.pid_http.specs.Api.Questions.{num_said, on_said, path_said, revision_said};
ghost use Rattle.pid_http.specs.Api.Questions.{rest_after as rest_of, submissions_asked};
ghost use Rattle.pid_http.specs.Api.Questions.{then_said, topic_asked};
ghost use Rattle.pid_http.specs.Api.Steps.Making.{MakesSaid};
ghost use Rattle.pid_http.specs.declared.api.question.Question.TheVariants as questions;

use crate::api::early::{RefusedEarly, Unasked};
use crate::api::field_values::{
    account_named, author_named, number_named, path_named, revision_named, submission_named,
};
use crate::api::format::Format;
use crate::api::route_table::{Pages, Topic, Whole};
use pid_form::{text_at, value};
use pid_ident::{Account, Path, PathText};
use pid_lookup::{Args, args_of};
use pid_moderation::{Refusal, submission_number};
use std::alloc::Global;

/// What a request asks the registry.
#[derive(Drop)]
pub enum Question {
    /// What needs no value.
    Whole(Whole),
    /// The item at a path.
    Read(Path),
    /// The items right below a path, or those at the top.
    Children(Option<Path>),
    /// A look-up, whose answer is cut to a buffer of `size` bytes.
    Lookup {
        flags: u32,
        args: Args,
        size: u32,
    },
    /// The submission with a number.
    Submission(u32),
    /// The submission with a number, and the remarks on it whose places are above this one.
    Remarks {
        number: u32,
        after: u32,
    },
    /// A page of submissions: those with greater numbers than this.
    Pages(Pages, u32),
    /// The items that commands with greater numbers than this added or renamed, after a path or
    /// from the first one on.
    Changes {
        since: u64,
        after: Option<Path>,
    },
    /// The submissions for a path and of an author, where one is named, with numbers below this
    /// one, of which 0 stands for no bound.
    Submissions {
        path: Option<Path>,
        author: Option<Account>,
        before: u32,
    },
    /// The rank of an account.
    Rank(Account),
}

// What follows a prefix of a path.
fn rest_after<'a>(path: &'a str, front: &str) -> &'a str
    ensures { result.now ≡ rest_of front.now path.now }
{
    path.strip_prefix(front).unwrap_or("")
}

fn item_of(path: &str, format: Format) -> Result<Question, Unasked>
    ensures { MakesSaid result (on_said questions.Read
        (named_path format (rest_of (codes "/read/") path.now))) }
{
    match Path::parse(rest_after(path, "/read/")) {
        Some(path) => Ok(Question::Read(path)),
        None => Err(Unasked::Early(RefusedEarly::BadValue(Refusal::BadPath, format))),
    }
}

fn number_of(path: &str, format: Format) -> Result<Question, Unasked>
    ensures { MakesSaid result (on_said questions.Submission (ok_or
        (number_in (rest_of (codes "/submission/") path.now))
        (RefusedEarly.BadValue Refusal.BadText format))) }
{
    match submission_number(rest_after(path, "/submission/")) {
        Some(number) => Ok(Question::Submission(number)),
        None => Err(Unasked::Early(RefusedEarly::BadValue(Refusal::BadText, format))),
    }
}

fn lookup_of(fields: &[(String, String)]) -> Result<Question, Unasked>
    ensures { MakesSaid result (on_said lookup_asked
        (ok_or (lookup_from (texts_of fields.now)) RefusedEarly.BadQuery)) }
{
    match args_of(fields) {
        Ok((flags, args, size)) => Ok(Question::Lookup { flags, args, size }),
        Err(_) => Err(Unasked::Early(RefusedEarly::BadQuery)),
    }
}

fn children_of(fields: &[(String, String)], format: Format) -> Result<Question, Unasked>
    ensures { MakesSaid result (on_said questions.Children
        (path_said format (text_in (codes "of") (texts_of fields.now)))) }
{
    Ok(Question::Children(path_named(text_at(fields, "of"), format)?))
}

fn remarks_of(fields: &[(String, String)]) -> Result<Question, Unasked>
    ensures { MakesSaid result (then_said (λ number. on_said (questions.Remarks number)
        (after_said (value_in (codes "after") (texts_of fields.now))))
        (num_said (text_in (codes "num") (texts_of fields.now)))) }
{
    let number = submission_named(text_at(fields, "num"))?;
    let after = number_named(value(fields, "after"))?;
    Ok(Question::Remarks { number, after })
}

fn page_of(pages: Pages, fields: &[(String, String)]) -> Result<Question, Unasked>
    ensures { MakesSaid result (on_said (questions.Pages pages)
        (after_said (value_in (codes "after") (texts_of fields.now)))) }
{
    Ok(Question::Pages(pages, number_named(value(fields, "after"))?))
}

fn changes_of(fields: &[(String, String)], format: Format) -> Result<Question, Unasked>
    ensures { MakesSaid result (then_said (λ since. on_said (questions.Changes since)
        (path_said format (text_in (codes "after") (texts_of fields.now))))
        (revision_said (value_in (codes "since") (texts_of fields.now)))) }
{
    let since = revision_named(value(fields, "since"))?;
    let after = path_named(text_at(fields, "after"), format)?;
    Ok(Question::Changes { since, after })
}

fn submissions_of(
    alloc: Global,
    fields: &[(String, String)],
    format: Format,
) -> Result<Question, Unasked>
    ensures { MakesSaid result (submissions_asked (texts_of fields.now) format) }
{
    let before = number_named(value(fields, "before"))?;
    let author = author_named(alloc, value(fields, "author"))?;
    let path = path_named(text_at(fields, "path"), format)?;
    Ok(Question::Submissions {
        path,
        author,
        before,
    })
}

fn rank_of(alloc: Global, fields: &[(String, String)]) -> Result<Question, Unasked>
    ensures { MakesSaid result (on_said questions.Rank
        (account_said (text_in (codes "who") (texts_of fields.now)))) }
{
    Ok(Question::Rank(account_named(alloc, text_at(fields, "who"))?))
}

// The question about a topic, by the path of its target and the fields of its query, whose names
// are good and which say this format.
#[tactic(auto, unfolding(crate::specs::Api::Questions::topic_asked))]
pub(crate) fn ask_topic(
    alloc: Global,
    topic: Topic,
    path: &str,
    fields: &[(String, String)],
    format: Format,
) -> Result<Question, Unasked>
    ensures { MakesSaid result (topic_asked topic path.now (texts_of fields.now) format) }
{
    match topic {
        Topic::Whole(whole) => Ok(Question::Whole(whole)),
        Topic::Read => item_of(path, format),
        Topic::Children => children_of(fields, format),
        Topic::Lookup => lookup_of(fields),
        Topic::Submission => number_of(path, format),
        Topic::Remarks => remarks_of(fields),
        Topic::Pages(pages) => page_of(pages, fields),
        Topic::Changes => changes_of(fields, format),
        Topic::Submissions => submissions_of(alloc, fields, format),
        Topic::Rank => rank_of(alloc, fields),
    }
}
