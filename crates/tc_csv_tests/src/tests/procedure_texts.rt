//! Texts of procedures as people and spreadsheets write them, good ones and bad ones.
use super::{Told, is_agreed};
use std::alloc::Global;
use std::test::Fail;
use tc_csv::{Rule, read_procedure, why_no_procedure};
use tc_proc::{Procedure, Step};

/// The procedure that a text spells, if it spells one.
pub fn procedure(alloc: Global, text: &[u8]) -> Option<Procedure> {
    read_procedure(alloc, text).ok()
}

/// Whether a text has this fault, or none, and is refused so.
fn is_judged(alloc: Global, text: &[u8], told: Option<Told>) -> bool {
    let refused = read_procedure(alloc, text).err();
    is_agreed(why_no_procedure(alloc, text), refused, told)
}

/// A text, and what is wrong with it.
#[derive(Clone, Copy)]
struct Case {
    text: &'static [u8],
    told: Option<Told>,
}

/// The texts.
const CASES: [Case; 34] = [
    Case {
        text: b"step,text,second,request\n1,check power,no,\n2,switch on,yes,1\n",
        told: None,
    },
    Case {
        text: b"\xef\xbb\xbfstep,text,second,request\r\n1,check power,no,\r\n2,switch on,yes,1\r\n",
        told: None,
    },
    Case {
        text: b"\"step\",\"text\",\"second\",\"request\"\n\"1\",\"check, then \"\"switch\"\"\",\"no\",\"\"\n",
        told: None,
    },
    Case {
        text: b"step,text,second,request\n1,check power,no,0",
        told: None,
    },
    Case {
        text: b"\n\nstep,text,second,request\n\n1,~,yes,4294967295\n\n",
        told: None,
    },
    Case {
        text: b"step,text,second,request\n1, ,no,\n",
        told: None,
    },
    Case {
        text: b"",
        told: Some((0, Rule::Header)),
    },
    Case {
        text: b"\xef\xbb\xbf",
        told: Some((0, Rule::Header)),
    },
    Case {
        text: b"\xef\xbb\xbf\xef\xbb\xbfstep,text,second,request\n1,check,no,\n",
        told: Some((0, Rule::Header)),
    },
    Case {
        text: b"step,text,request,second\n1,check,,no\n",
        told: Some((0, Rule::Header)),
    },
    Case {
        text: b"step,text,second\n1,check,no\n",
        told: Some((0, Rule::Header)),
    },
    Case {
        text: b"step,text,second,request,\n1,check,no,,\n",
        told: Some((0, Rule::Header)),
    },
    Case {
        text: b"Step,text,second,request\n1,check,no,\n",
        told: Some((0, Rule::Header)),
    },
    Case {
        text: b" step,text,second,request\n1,check,no,\n",
        told: Some((0, Rule::Header)),
    },
    Case {
        text: b"step,text,second,request",
        told: Some((1, Rule::SomeRow)),
    },
    Case {
        text: b"step,text,second,request\n\n\n",
        told: Some((1, Rule::SomeRow)),
    },
    Case {
        text: b"step,text,second,request\n1,check,no\n",
        told: Some((1, Rule::FieldCount)),
    },
    Case {
        text: b"step,text,second,request\n1,check,no,\n2,check, then switch,no,\n",
        told: Some((2, Rule::FieldCount)),
    },
    Case {
        text: b"step;text;second;request\n1;check;no;\n",
        told: Some((0, Rule::Header)),
    },
    Case {
        text: b"step,text,second,request\n1,check,no,\n3,check,no,\n",
        told: Some((2, Rule::StepNumber)),
    },
    Case {
        text: b"step,text,second,request\n0,check,no,\n",
        told: Some((1, Rule::StepNumber)),
    },
    Case {
        text: b"step,text,second,request\n01,check,no,\n",
        told: Some((1, Rule::StepNumber)),
    },
    Case {
        text: b"step,text,second,request\n 1,check,no,\n",
        told: Some((1, Rule::StepNumber)),
    },
    Case {
        text: b"step,text,second,request\n1,,no,\n",
        told: Some((1, Rule::StepText)),
    },
    Case {
        text: b"step,text,second,request\n1,\"check\npower\",no,\n",
        told: Some((1, Rule::StepText)),
    },
    Case {
        text: b"step,text,second,request\n1,check\x7f,no,\n",
        told: Some((1, Rule::StepText)),
    },
    Case {
        text: b"step,text,second,request\n1,caf\xc3\xa9,no,\n",
        told: Some((1, Rule::StepText)),
    },
    Case {
        text: b"step,text,second,request\n1,\xff,no,\n",
        told: Some((1, Rule::StepText)),
    },
    Case {
        text: b"step,text,second,request\n1,check,Yes,\n",
        told: Some((1, Rule::Second)),
    },
    Case {
        text: b"step,text,second,request\n1,check,,\n",
        told: Some((1, Rule::Second)),
    },
    Case {
        text: b"step,text,second,request\n1,check,no,one\n",
        told: Some((1, Rule::StepRequest)),
    },
    Case {
        text: b"step,text,second,request\n1,check,no,4294967296\n",
        told: Some((1, Rule::StepRequest)),
    },
    Case {
        text: b"step,text,second,request\n1,check,no,-\n",
        told: Some((1, Rule::StepRequest)),
    },
    Case {
        text: b"step,text,second,request\n1,check,maybe,x\n2,check,no\n3\n",
        told: Some((1, Rule::Second)),
    },
];

/// Whether a step is this one.
fn is_step(step: &Step, text: &str, is_countersigned: bool, request: Option<u32>) -> bool {
    step.text.as_str() == text
        && step.is_countersigned == is_countersigned
        && step.request == request
}

/// Whether these are the two steps of the first text.
fn are_the_two(steps: &[Step]) -> bool {
    match steps {
        [first, second] => {
            is_step(first, "check power", false, None)
                && is_step(second, "switch on", true, Some(1))
        }
        _ => false,
    }
}

/// Whether the first two texts spell the two steps.
fn read_the_two(alloc: Global) -> bool {
    for case in &CASES[..2] {
        match procedure(alloc, case.text) {
            Some(read) => {
                if !are_the_two(read.steps()) {
                    return false;
                }
            }
            None => return false,
        }
    }
    true
}

/// How many of the texts are judged as is written beside them.
fn judged(alloc: Global) -> usize {
    let mut count = 0_usize;
    for case in &CASES {
        if is_judged(alloc, case.text, case.told) {
            count = count.saturating_add(1);
        }
    }
    count
}

#[test]
fn two_steps_are_read(rt: HostRuntime) -> Result<(), Fail> {
    assert!(rt; read_the_two(rt.alloc()));
    Ok(())
}

#[test]
fn each_text_is_judged(rt: HostRuntime) -> Result<(), Fail> {
    assert!(rt; judged(rt.alloc()) == CASES.len());
    Ok(())
}

/// A text of so many bytes that spells a procedure but for its length: empty lines behind its one step are no records.
fn padded(alloc: Global, bytes: usize) -> Option<Vec<u8>> {
    let mut text = Vec::new(alloc);
    text.extend_from_slice(b"step,text,second,request\n1,check,no,\n")
        .ok()?;
    for _ in text.len()..bytes {
        text.push(b'\n').ok()?;
    }
    Some(text)
}

#[test]
fn a_text_has_a_longest_length(rt: HostRuntime) -> Result<(), Fail> {
    let longest = padded(rt.alloc(), 65_536).expect(&rt, "a text");
    assert!(rt; is_judged(rt.alloc(), longest.as_slice(), None));
    let longer = padded(rt.alloc(), 65_537).expect(&rt, "a text");
    assert!(rt; is_judged(rt.alloc(), longer.as_slice(), Some((0, Rule::TextLength))));
    Ok(())
}
