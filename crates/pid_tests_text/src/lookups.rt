//! Look-ups over a tree, which no program makes, and over a holder of names that fails.
//! tests/support/script_rows.py has the look-ups of the program.
use crate::trees::made;
use pid_ident::{Name, Path};
use pid_lookup::{Answer, Args, LookupRefusal, Names, TreeNames, args_of, lookup};
use pid_tree::Tree;
use std::alloc::Global;
use std::test::Fail;

// The fields of a query such as `flags=1&vendor=8086`.
fn fields_of(alloc: Global, query: &str) -> Result<Vec<(String, String)>, Fail> {
    let mut fields = Vec::new(alloc);
    for pair in query.split('&') {
        let (name, value) = pair.split_once('=').ok_or("a field")?;
        let name = String::from_str(alloc, name)?;
        fields.push((name, String::from_str(alloc, value)?))?;
    }
    Ok(fields)
}

// Whether an answer has this text; `none` is no answer.
fn is_text(answer: &Answer, expected: &[u8]) -> bool {
    match answer {
        Answer::Text(text) => text.as_bytes() == expected,
        Answer::NoAnswer => expected == b"none".as_slice(),
    }
}

// Whether a query over a tree is answered so.
fn is_answered(alloc: Global, tree: &Tree, query: &str, expected: &[u8]) -> Result<bool, Fail> {
    let fields = fields_of(alloc, query)?;
    let (flags, args, size) = args_of(fields.as_slice())?;
    match lookup(alloc, &mut TreeNames::new(tree), flags, &args, size) {
        Ok(answer) => Ok(is_text(&answer, expected)),
        Err(_) => Err("no answer")?,
    }
}

// Fails with the first row, a query and its answer, that is not so over the tree of these items.
fn try_rows(alloc: Global, items: &str, rows: &str) -> Result<(), Fail> {
    let tree = made(alloc, items)?;
    for row in rows.lines() {
        let (query, expected) = row.split_once('|').ok_or("a row")?;
        if !is_answered(alloc, &tree, query, expected.as_bytes())? {
            return Err(row)?;
        }
    }
    Ok(())
}

const QEMU: &str = "\
PC/8086 Intel Corporation
PC/8086/1237 440FX
PC/8086/1237/1af41100 Qemu machine
PC/1af4 Red Hat, Inc.
";

const SUBSYSTEMS: &str = "\
flags=b&vendor=8086&device=1237&subvendor=1af4&subdevice=1100|Red Hat, Inc. Qemu machine
flags=a&vendor=8086&device=1237&subvendor=1af4&subdevice=1101|Device 1101
";

#[test]
fn shows_names_of_a_tree(rt: HostRuntime) -> Result<(), Fail> {
    try_rows(rt.alloc(), QEMU, SUBSYSTEMS)
}

// A holder that knows no name, and fails after so many questions.
#[derive(Drop)]
struct Failing {
    good_questions: u32,
}

impl Names for Failing {
    type Fault = u8;

    ghost use Rattle.std.specs.Prelude.{◌≡◌, ℕ, ⊤};
    ghost use Rattle.std.specs.FinMap.{empty};

    ghost Shown = { ℕ };

    ghost map_of = { λ _. empty };

    ghost shows = { λ _ _. ⊤ };

    ghost is_honest = { λ _. ⊥ };

    ghost may_give = { λ _ fault. fault ≡ 7 };

    ghost only_asked = { λ _ _. ⊤ };

    fn name_of(&mut self, _path: &Path) -> Result<Option<Name>, u8> {
        if self.good_questions == 0 {
            return Err(7);
        }
        self.good_questions -= 1;
        Ok(None)
    }
}

// Whether a holder that fails after so many questions is answered so; `fault` is its fault.
fn is_answered_by(alloc: Global, good_questions: u32, flags: u32, expected: &[u8]) -> bool {
    let own = Args {
        subvendor: 0x8086,
        subdevice: 0x1237,
        vendor: 0x8086,
        device: 0x1237,
        class: 0x0101,
        progif: 0x80,
    };
    match lookup(alloc, &mut Failing { good_questions }, flags, &own, 1024) {
        Ok(answer) => is_text(&answer, expected),
        Err(LookupRefusal::Names(7)) => expected == b"fault".as_slice(),
        Err(_) => false,
    }
}

#[test]
fn passes_on_the_fault_of_any_question(rt: HostRuntime) {
    for good_questions in 0..4u32 {
        assert!(rt;
            is_answered_by(rt.alloc(), good_questions, 0xb, b"fault"),
            "{good_questions}"
        );
    }
    let answered: [(u32, u32, &[u8]); 3] = [
        (4, 0xb, b"Device 8086:1237"),
        (0, 0x1_000b, b"8086:1237"),
        (0, 0x5, b"<pci_lookup_name: invalid request>"),
    ];
    for (good_questions, flags, expected) in answered {
        assert!(rt;
            is_answered_by(rt.alloc(), good_questions, flags, expected),
            "{flags}"
        );
    }
}
