use crate::Status;
use crate::cases::{Case, good, refused, try_case};
use std::test::Fail;

#[test]
fn scenarios_are_read_line_by_line(rt: HostRuntime) -> Result<(), Fail> {
    let cases = [
        Case {
            scenario: Some("horizon 10000\r\nsense\tP.s 0  1"),
            ..good()
        },
        Case {
            scenario: Some("# the input is 1\n\n \t\nsense P.s 0 1\nhorizon 10000\n"),
            ..good()
        },
        Case {
            scenario: Some("horizon 0\n"),
            out: "0 n1 mode P main\n",
            ..good()
        },
        Case {
            scenario: Some("horizon 7499\nsense P.s 0 2147483647\n"),
            out: "0 n1 mode P main\n5000 n1 port P.inc.o -2147483639\n",
            ..good()
        },
        Case {
            scenario: Some("horizon 10000\nsense P.s 5000 -2147483648\n"),
            out: "0 n1 mode P main\n5000 n1 port P.inc.o 10\n10000 n1 port P.inc.o -2147483638\n",
            ..good()
        },
    ];
    for case in cases.iter() {
        try_case(&rt, rt.alloc(), case)?;
    }
    Ok(())
}

// Times could be refused, or change what is printed.
#[test]
fn jobs_take_their_listed_times(rt: HostRuntime) -> Result<(), Fail> {
    let cases = [
        Case {
            scenario: Some("horizon 10000\nsense P.s 0 1\nexec P.inc 1 200\n"),
            ..good()
        },
        Case {
            scenario: Some("exec P.inc 7\nexec P.inc 150\nhorizon 10000\norder n1\nsense P.s 0 1"),
            ..good()
        },
    ];
    for case in cases.iter() {
        try_case(&rt, rt.alloc(), case)?;
    }
    Ok(())
}

// A scenario, the rule that it breaks first, the line, and what is said of it.
const BROKEN: [(&str, u8, u32, &str); 8] = [
    ("", 1, 1, "tdl: scenario N1 line 1\n"),
    (
        "horizon 5\nsenses P.s 0 1\n",
        1,
        2,
        "tdl: scenario N1 line 2\n",
    ),
    (
        "horizon 5\nsense Q.s 0 1\n",
        2,
        2,
        "tdl: scenario N2 line 2\n",
    ),
    (
        "sense P.s 3 1\nsense P.s 3 1\n",
        3,
        2,
        "tdl: scenario N3 line 2\n",
    ),
    (
        "sense P.s 3 2147483648\n",
        4,
        1,
        "tdl: scenario N4 line 1\n",
    ),
    (
        "horizon 5\n\nexec P.inc 201\n",
        5,
        3,
        "tdl: scenario N5 line 3\n",
    ),
    ("horizon 1000001\n", 6, 1, "tdl: scenario N6 line 1\n"),
    (
        "horizon 5\nbind P.s 0 0\n",
        8,
        2,
        "tdl: scenario N8 line 2\n",
    ),
];

#[test]
fn a_broken_rule_of_a_scenario_is_told(rt: HostRuntime) -> Result<(), Fail> {
    for (text, rule, line, told) in BROKEN.iter() {
        let status = Status::BadScenario {
            rule: *rule,
            line: *line,
        };
        let case = Case {
            scenario: Some(*text),
            ..refused(status, *told)
        };
        try_case(&rt, rt.alloc(), &case)?;
    }
    Ok(())
}
