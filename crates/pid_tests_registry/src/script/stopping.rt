//! Registries that refuse: one whose store fails it, and one that has failed.
use pid_doubles::{FaultyInput, FaultyOutput};
use pid_ident::{Name, Output, Path, write_all};
use pid_lookup::{Answer, Args, LookupRefusal};
use pid_moderation::{Command, Refusal, Reply};
use pid_script::{RegistryCalls, ScriptEnd, run_script};
use pid_service::ExportFault;
use std::alloc::Global;
use std::process::Abort;
use std::test::Fail;

/// A registry that does so many commands and then refuses all; an export it breaks off after whole
/// lines.
#[derive(Drop)]
pub struct Refusing {
    pub commands: u32,
    pub refusal: Refusal,
    pub lines: &'static [u8],
}

impl RegistryCalls for Refusing {
    ghost use Rattle.std.specs.Prelude.{true};

    ghost showing = { record {
      is_clean = λ registry. Unit {0};
      shows = λ registry h. ⊥;
      fails_between = λ registry h after. ⊥;
      beside = λ old new. Unit {0};
    } };

    ghost is_live = { λ registry. true };

    ghost lives = { record {
      shown = λ registry h shows. absurd shows;
      fallen = λ registry h next fails. absurd fails;
    } };

    fn obey(&mut self, _command: Command) -> Result<Reply, Refusal> {
        if self.commands == 0 {
            return Err(self.refusal);
        }
        self.commands -= 1;
        Ok(Reply::Done)
    }

    fn read(&mut self, _path: &Path) -> Result<Option<Name>, Refusal> {
        Err(self.refusal)
    }

    fn lookup(
        &mut self,
        _flags: u32,
        _args: &Args,
        _size: u32,
    ) -> Result<Answer, LookupRefusal<Refusal>> {
        Err(LookupRefusal::Names(self.refusal))
    }

    fn export<O: Output>(&mut self, out: &mut O) -> Result<(), ExportFault> {
        match write_all(out, self.lines) {
            Ok(()) => Err(ExportFault::Refused(self.refusal)),
            Err(fault) => Err(ExportFault::Write(fault)),
        }
    }
}

// What is answered up to the refusal, with which the script stops. What follows the line that is
// refused is not read.
fn expect_stop(
    rt: &impl Abort,
    alloc: Global,
    mut registry: Refusing,
    script: (&[u8], &[u8]),
    replies: &[u8],
) -> Result<(), Fail> {
    let (lines, behind) = script;
    let mut text = Vec::new(alloc);
    text.extend_from_slice(lines)?;
    text.extend_from_slice(behind)?;
    let mut input = FaultyInput::new(text.as_slice(), 1);
    let mut output = FaultyOutput::new(alloc, 100);
    let end = run_script(alloc, &mut registry, &mut input, &mut output, 1_000);
    assert_eq!(rt; end, ScriptEnd::Stopped);
    assert_eq!(rt; output.taken.as_slice(), replies);
    assert_eq!(rt; input.rest, behind);
    Ok(())
}

const HEADER: &[u8] = b"# PCI ID registry\n";

#[test]
fn the_store_fails(rt: HostRuntime) -> Result<(), Fail> {
    let registry = Refusing {
        commands: 1,
        refusal: Refusal::Store,
        lines: HEADER,
    };
    let lines = b"account root who=alice&rank=0\nsubmit alice path=PC/8086&name=Intel\n";
    let script = (lines.as_slice(), b"export\n".as_slice());
    expect_stop(&rt, rt.alloc(), registry, script, b"ok\nrefused 17 Store\n")
}

// Whole lines of the text come before the refusal.
#[test]
fn the_store_fails_within_an_export(rt: HostRuntime) -> Result<(), Fail> {
    for refusal in [Refusal::Memory, Refusal::Store] {
        let registry = Refusing {
            commands: 0,
            refusal,
            lines: HEADER,
        };
        let replies = match refusal {
            Refusal::Memory => b"# PCI ID registry\nrefused 16 Memory\n".as_slice(),
            _ => b"# PCI ID registry\nrefused 17 Store\n".as_slice(),
        };
        let script = (b"export\n".as_slice(), b"nonsense\n".as_slice());
        expect_stop(&rt, rt.alloc(), registry, script, replies)?;
    }
    Ok(())
}

// Lines that ask nothing of it are answered, and the first one that does stops the script.
#[test]
fn failed_registries_are_asked_once(rt: HostRuntime) -> Result<(), Fail> {
    let alloc = rt.alloc();
    for line in [
        "export",
        "read path=PC/8086",
        "lookup flags=1",
        "approve root num=1",
    ] {
        let mut script = String::from_str(alloc, "# comment\nnonsense\nread path=pc\n")?;
        script.push_str(line)?;
        script.push_str("\n")?;
        let registry = Refusing {
            commands: 0,
            refusal: Refusal::Failed,
            lines: b"",
        };
        let replies = b"refused 3 BadText\nrefused 1 BadPath\nrefused 18 Failed\n";
        let script = (script.as_bytes(), b"nonsense\n".as_slice());
        expect_stop(&rt, alloc, registry, script, replies)?;
    }
    Ok(())
}
