//! Rows of stacks, good ones and bad ones, and what is wrong with each.
use super::Told;
use tc_csv::Rule;

/// Rows under the header, and what is wrong with them.
#[derive(Clone, Copy)]
pub struct Case {
    /// The rows, each ended by LF.
    pub rows: &'static [u8],
    /// The row and the first rule that it breaks, or none.
    pub told: Option<Told>,
}

/// The cases.
pub const CASES: [Case; 86] = [
    Case {
        rows: b"1,5,8,1,,,---c,no,,ok\n2,5,8,2,,,---c,no,1,ok\n",
        told: None,
    },
    Case {
        rows: b"1,5,8,1,,,---c,yes,,ok\n",
        told: None,
    },
    Case {
        rows: b"1,0,1,255,,,asp-,no,,refuse/16\n2,2047,255,1,,,----,yes,,halt/9/255\n",
        told: None,
    },
    Case {
        rows: b"1,5,8,1,,,a--c,no,,ok\n2,5,11,4,1,2031-05-04T10:00:00Z,---c,no,,ok\n",
        told: None,
    },
    Case {
        rows: b"1,5,8,1,,,a--c,no,,ok\n2,5,11,4,1,2031-05-04T12:00:00+02:00,---c,no,,ok\n",
        told: None,
    },
    Case {
        rows: b"1,5,8,1,,,a--c,no,,ok\n2,5,11,4,1,2031-05-04T10:00:00.000Z,---c,no,,ok\n",
        told: None,
    },
    Case {
        rows: b"1,5,8,1,,,a--c,no,,ok\n2,5,11,4,1,1970-01-01T00:00:00Z,---c,no,,ok\n",
        told: None,
    },
    Case {
        rows: b"1,5,8,1,,,a--c,no,,ok\n2,5,11,4,1,2099-12-31T23:59:59Z,---c,no,,ok\n",
        told: None,
    },
    Case {
        rows: b"1,5,8,1,,,a--c,no,,ok\n2,5,11,4,1,2028-02-29T23:59:59Z,---c,no,,ok\n",
        told: None,
    },
    Case {
        rows: b"1,5,8,1,,,a--c,no,,ok\n2,5,11,4,1,2031-05-04 10:00:00Z,---c,no,,ok\n",
        told: None,
    },
    Case {
        rows: b"1,5,8,1,,,a--c,no,,ok\n2,5,11,5,1,,---c,no,,ok\n",
        told: None,
    },
    Case {
        rows: b"1,5,8,1,,,a--c,no,,ok\n2,5,11,7,1,-60,---c,no,,ok\n",
        told: None,
    },
    Case {
        rows: b"1,5,8,1,,,a--c,no,,ok\n2,5,11,15,,60,---c,no,,ok\n",
        told: None,
    },
    Case {
        rows: b"1,5,8,1,,,a--c,no,,ok\n2,5,11,15,,0,---c,no,,ok\n",
        told: None,
    },
    Case {
        rows: b"1,5,8,1,,,a--c,no,,ok\n2,5,11,1,,,---c,no,,ok\n",
        told: None,
    },
    Case {
        rows: b"1,5,8,1,,,a--c,no,,ok\n2,5,11,2,,,---c,no,,ok\n",
        told: None,
    },
    Case {
        rows: b"1,5,8,1,,,a--c,no,,ok\n2,5,11,3,,,---c,no,,ok\n",
        told: None,
    },
    Case {
        rows: b"1,5,8,1,,,a--c,no,,ok\n2,5,11,17,,,---c,no,,ok\n",
        told: None,
    },
    Case {
        rows: b"1,5,8,1,,,a--c,no,,ok\n2,5,8,1,,,----,no,,ok\n3,5,11,5,2,,---c,no,,ok\n",
        told: None,
    },
    Case {
        rows: b"1,5,8,1,,,---c,no,\n",
        told: Some((1, Rule::FieldCount)),
    },
    Case {
        rows: b"1,5,8,1,,,---c,no,,ok,\n",
        told: Some((1, Rule::FieldCount)),
    },
    Case {
        rows: b"0,5,8,1,,,---c,no,,ok\n",
        told: Some((1, Rule::Line)),
    },
    Case {
        rows: b"2,5,8,1,,,---c,no,,ok\n",
        told: Some((1, Rule::Line)),
    },
    Case {
        rows: b"01,5,8,1,,,---c,no,,ok\n",
        told: Some((1, Rule::Line)),
    },
    Case {
        rows: b" 1,5,8,1,,,---c,no,,ok\n",
        told: Some((1, Rule::Line)),
    },
    Case {
        rows: b"one,5,8,1,,,---c,no,,ok\n",
        told: Some((1, Rule::Line)),
    },
    Case {
        rows: b",5,8,1,,,---c,no,,ok\n",
        told: Some((1, Rule::Line)),
    },
    Case {
        rows: b"1,5,8,1,,,a--c,no,,ok\n3,5,8,1,,,---c,no,,ok\n",
        told: Some((2, Rule::Line)),
    },
    Case {
        rows: b"1,2048,8,1,,,---c,no,,ok\n",
        told: Some((1, Rule::Apid)),
    },
    Case {
        rows: b"1,-1,8,1,,,---c,no,,ok\n",
        told: Some((1, Rule::Apid)),
    },
    Case {
        rows: b"1,,8,1,,,---c,no,,ok\n",
        told: Some((1, Rule::Apid)),
    },
    Case {
        rows: b"1,05,8,1,,,---c,no,,ok\n",
        told: Some((1, Rule::Apid)),
    },
    Case {
        rows: b"1,5,0,1,,,---c,no,,ok\n",
        told: Some((1, Rule::Service)),
    },
    Case {
        rows: b"1,5,256,1,,,---c,no,,ok\n",
        told: Some((1, Rule::Service)),
    },
    Case {
        rows: b"1,5,,1,,,---c,no,,ok\n",
        told: Some((1, Rule::Service)),
    },
    Case {
        rows: b"1,5,\xff,1,,,---c,no,,ok\n",
        told: Some((1, Rule::Service)),
    },
    Case {
        rows: b"1,5,8,0,,,---c,no,,ok\n",
        told: Some((1, Rule::Subtype)),
    },
    Case {
        rows: b"1,5,8,256,,,---c,no,,ok\n",
        told: Some((1, Rule::Subtype)),
    },
    Case {
        rows: b"1,5,11,6,,,---c,no,,ok\n",
        told: Some((1, Rule::Subtype)),
    },
    Case {
        rows: b"1,5,11,16,,,---c,no,,ok\n",
        told: Some((1, Rule::Subtype)),
    },
    Case {
        rows: b"1,5,8,1,1,,---c,no,,ok\n",
        told: Some((1, Rule::Target)),
    },
    Case {
        rows: b"1,5,8,1,-,,---c,no,,ok\n",
        told: Some((1, Rule::Target)),
    },
    Case {
        rows: b"1,5,8,1,,,a--c,no,,ok\n2,5,11,4,0,2031-05-04T10:00:00Z,---c,no,,ok\n3,5,8,1,,,a---,no,,ok\n",
        told: Some((2, Rule::Target)),
    },
    Case {
        rows: b"1,5,8,1,,,a--c,no,,ok\n2,5,11,4,2,2031-05-04T10:00:00Z,---c,no,,ok\n3,5,8,1,,,a---,no,,ok\n",
        told: Some((2, Rule::Target)),
    },
    Case {
        rows: b"1,5,8,1,,,a--c,no,,ok\n2,5,11,4,3,2031-05-04T10:00:00Z,---c,no,,ok\n3,5,8,1,,,a---,no,,ok\n",
        told: Some((2, Rule::Target)),
    },
    Case {
        rows: b"1,5,8,1,,,a--c,no,,ok\n2,5,11,4,,2031-05-04T10:00:00Z,---c,no,,ok\n3,5,8,1,,,a---,no,,ok\n",
        told: Some((2, Rule::Target)),
    },
    Case {
        rows: b"1,5,8,1,,,a--c,no,,ok\n2,5,11,4,1,,---c,no,,ok\n",
        told: Some((2, Rule::Time)),
    },
    Case {
        rows: b"1,5,8,1,,,a--c,no,,ok\n2,5,11,4,1,2031-05-04T10:00:00.5Z,---c,no,,ok\n",
        told: Some((2, Rule::Time)),
    },
    Case {
        rows: b"1,5,8,1,,,a--c,no,,ok\n2,5,11,4,1,2100-01-01T00:00:00Z,---c,no,,ok\n",
        told: Some((2, Rule::Time)),
    },
    Case {
        rows: b"1,5,8,1,,,a--c,no,,ok\n2,5,11,4,1,1969-12-31T23:59:59Z,---c,no,,ok\n",
        told: Some((2, Rule::Time)),
    },
    Case {
        rows: b"1,5,8,1,,,a--c,no,,ok\n2,5,11,4,1,2031-05-04,---c,no,,ok\n",
        told: Some((2, Rule::Time)),
    },
    Case {
        rows: b"1,5,8,1,,,a--c,no,,ok\n2,5,11,4,1,2031-05-04T10:00:00,---c,no,,ok\n",
        told: Some((2, Rule::Time)),
    },
    Case {
        rows: b"1,5,8,1,,,a--c,no,,ok\n2,5,11,4,1,2031-02-29T10:00:00Z,---c,no,,ok\n",
        told: Some((2, Rule::Time)),
    },
    Case {
        rows: b"1,5,8,1,,,a--c,no,,ok\n2,5,11,4,1,1935741600,---c,no,,ok\n",
        told: Some((2, Rule::Time)),
    },
    Case {
        rows: b"1,5,8,1,,,a--c,no,,ok\n2,5,11,5,1,60,---c,no,,ok\n",
        told: Some((2, Rule::Time)),
    },
    Case {
        rows: b"1,5,11,15,,-0,---c,no,,ok\n",
        told: Some((1, Rule::Time)),
    },
    Case {
        rows: b"1,5,8,1,,,asp,no,,ok\n",
        told: Some((1, Rule::Ack)),
    },
    Case {
        rows: b"1,5,11,1,,,asp-,no,,ok\n",
        told: Some((1, Rule::Ack)),
    },
    Case {
        rows: b"1,5,8,1,,,---c,Yes,,ok\n",
        told: Some((1, Rule::Critical)),
    },
    Case {
        rows: b"1,5,8,1,,,---c,no,1,ok\n",
        told: Some((1, Rule::After)),
    },
    Case {
        rows: b"1,5,8,1,,,a--c,no,,ok\n2,5,8,1,,,---c,no,0,ok\n",
        told: Some((2, Rule::After)),
    },
    Case {
        rows: b"1,5,8,1,,,---c,no,,OK\n",
        told: Some((1, Rule::Outcome)),
    },
    Case {
        rows: b"1,5,11,1,,,---c,no,,ok/1\n",
        told: Some((1, Rule::Outcome)),
    },
    Case {
        rows: b"1,5,8,1,,,---c,no,,ok\n2,5,11,4,1,2031-05-04T10:00:00Z,---c,no,,ok\n",
        told: Some((2, Rule::TargetRow)),
    },
    Case {
        rows: b"1,5,11,1,,,a--c,no,,ok\n2,5,11,5,1,,---c,no,,ok\n",
        told: Some((2, Rule::TargetRow)),
    },
    Case {
        rows: b"1,5,11,1,,,a--c,no,,ok\n2,5,11,5,1,,---c,no,,ok\n3,5,8,1,,,---c,no,,no\n",
        told: Some((3, Rule::Outcome)),
    },
    Case {
        rows: b"1,5,8,1,,,a--c,no,,ok\n2,5,8,1,,,a--c,no,,ok\n3,5,11,4,1;2,1970-01-01T00:20:00Z;1970-01-01T00:21:00Z,---c,no,,ok\n",
        told: None,
    },
    Case {
        rows: b"1,5,8,1,,,a--c,no,,ok\n2,5,8,1,,,a--c,no,,ok\n3,5,11,4,\"1;2\",\"1970-01-01T00:20:00Z;1970-01-01T01:21:00+01:00\",---c,no,,ok\n",
        told: None,
    },
    Case {
        rows: b"1,5,8,1,,,a--c,no,,ok\n2,5,8,1,,,a--c,no,,ok\n3,5,11,4,2;1,1970-01-01T01:20:00+01:00[Europe/Paris];19700101T002100Z,---c,no,,ok\n",
        told: None,
    },
    Case {
        rows: b"1,5,8,1,,,a--c,no,,ok\n2,5,8,1,,,a--c,no,,ok\n3,5,8,1,,,a--c,no,,ok\n4,5,8,1,,,a--c,no,,ok\n5,5,8,1,,,a--c,no,,ok\n6,5,8,1,,,a--c,no,,ok\n7,5,8,1,,,a--c,no,,ok\n8,5,8,1,,,a--c,no,,ok\n9,5,11,4,1;2;3;4;5;6;7;8,1970-01-01T00:20:00Z;1970-01-01T00:20:00Z;1970-01-01T00:20:00Z;1970-01-01T00:20:00Z;1970-01-01T00:20:00Z;1970-01-01T00:20:00Z;1970-01-01T00:20:00Z;1970-01-01T00:20:00Z,---c,no,,ok\n",
        told: None,
    },
    Case {
        rows: b"1,5,8,1,,,a--c,no,,ok\n2,5,8,1,,,a--c,no,,ok\n3,5,8,1,,,a--c,no,,ok\n4,5,8,1,,,a--c,no,,ok\n5,5,8,1,,,a--c,no,,ok\n6,5,8,1,,,a--c,no,,ok\n7,5,8,1,,,a--c,no,,ok\n8,5,8,1,,,a--c,no,,ok\n9,5,8,1,,,a--c,no,,ok\n10,5,11,4,1;2;3;4;5;6;7;8;9,1970-01-01T00:20:00Z;1970-01-01T00:20:00Z;1970-01-01T00:20:00Z;1970-01-01T00:20:00Z;1970-01-01T00:20:00Z;1970-01-01T00:20:00Z;1970-01-01T00:20:00Z;1970-01-01T00:20:00Z;1970-01-01T00:20:00Z,---c,no,,ok\n",
        told: Some((10, Rule::Target)),
    },
    Case {
        rows: b"1,5,8,1,,,a--c,no,,ok\n2,5,8,1,,,a--c,no,,ok\n3,5,11,4,1; 2,1970-01-01T00:20:00Z;1970-01-01T00:21:00Z,---c,no,,ok\n",
        told: Some((3, Rule::Target)),
    },
    Case {
        rows: b"1,5,8,1,,,a--c,no,,ok\n2,5,8,1,,,a--c,no,,ok\n3,5,11,4,1;2;,1970-01-01T00:20:00Z;1970-01-01T00:21:00Z,---c,no,,ok\n",
        told: Some((3, Rule::Target)),
    },
    Case {
        rows: b"1,5,8,1,,,a--c,no,,ok\n2,5,8,1,,,a--c,no,,ok\n3,5,11,4,1;3,1970-01-01T00:20:00Z;1970-01-01T00:21:00Z,---c,no,,ok\n4,5,8,1,,,a--c,no,,ok\n",
        told: Some((3, Rule::Target)),
    },
    Case {
        rows: b"1,5,8,1,,,a--c,no,,ok\n2,5,8,1,,,a--c,no,,ok\n3,5,11,4,1;4,1970-01-01T00:20:00Z;1970-01-01T00:21:00Z,---c,no,,ok\n4,5,8,1,,,a--c,no,,ok\n",
        told: Some((3, Rule::Target)),
    },
    Case {
        rows: b"1,5,8,1,,,a--c,no,,ok\n2,5,8,1,,,a--c,no,,ok\n3,5,11,4,4;1,1970-01-01T00:20:00Z,---c,no,,ok\n4,5,8,1,,,a--c,no,,ok\n",
        told: Some((3, Rule::Target)),
    },
    Case {
        rows: b"1,5,8,1,,,a--c,no,,ok\n2,5,8,1,,,a--c,no,,ok\n3,5,11,5,1;2,,---c,no,,ok\n",
        told: Some((3, Rule::Target)),
    },
    Case {
        rows: b"1,5,8,1,,,a--c,no,,ok\n2,5,8,1,,,a--c,no,,ok\n3,5,11,4,1;2,1970-01-01T00:20:00Z,---c,no,,ok\n",
        told: Some((3, Rule::Time)),
    },
    Case {
        rows: b"1,5,8,1,,,a--c,no,,ok\n2,5,8,1,,,a--c,no,,ok\n3,5,11,4,1;2,1970-01-01T00:20:00Z;1970-01-01T00:21:00Z;1970-01-01T00:21:00Z,---c,no,,ok\n",
        told: Some((3, Rule::Time)),
    },
    Case {
        rows: b"1,5,8,1,,,a--c,no,,ok\n2,5,8,1,,,a--c,no,,ok\n3,5,11,4,1;2,1970-01-01T00:20:00Z; 1970-01-01T00:21:00Z,---c,no,,ok\n",
        told: Some((3, Rule::Time)),
    },
    Case {
        rows: b"1,5,8,1,,,a--c,no,,ok\n2,5,8,1,,,a--c,no,,ok\n3,5,11,4,1;2,1970-01-01T00:20:00Z;,---c,no,,ok\n",
        told: Some((3, Rule::Time)),
    },
    Case {
        rows: b"1,5,8,1,,,a--c,no,,ok\n2,5,8,1,,,a--c,no,,ok\n3,5,11,4,1;2,1970-01-01T00:20:00Z;1970-01-01T00:21:00.5Z,---c,no,,ok\n",
        told: Some((3, Rule::Time)),
    },
    Case {
        rows: b"1,5,8,1,,,a--c,no,,ok\n2,5,8,1,,,a--c,no,,ok\n3,5,11,4,1;1,1970-01-01T00:20:00Z;1970-01-01T00:21:00Z,---c,no,,ok\n",
        told: Some((3, Rule::TargetRow)),
    },
    Case {
        rows: b"1,5,8,1,,,a--c,no,,ok\n2,5,8,1,,,---c,no,,ok\n3,5,11,4,1;2,1970-01-01T00:20:00Z;1970-01-01T00:21:00Z,---c,no,,ok\n",
        told: Some((3, Rule::TargetRow)),
    },
    Case {
        rows: b"1,5,8,1,,,a--c,no,,ok\n2,5,11,1,,,a--c,no,,ok\n3,5,11,4,1;2,1970-01-01T00:20:00Z;1970-01-01T00:21:00Z,---c,no,,ok\n",
        told: Some((3, Rule::TargetRow)),
    },
    Case {
        rows: b"1,5,8,1,,,a--c,no,,ok\n2,5,11,4,1;1,1970-01-01T00:20:00Z;1970-01-01T00:21:00Z,---c,no,,ok\n3,5,8,1,,,a-c,no,,ok\n",
        told: Some((3, Rule::Ack)),
    },
];
