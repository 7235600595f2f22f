//! What no clause says of scripts: each reason for which one is bad, with its line, and scripts that are good.
use dtx_values::SCRIPT_LIMIT;
use script_read::{ScriptErr, Why, read_script};
use std::alloc::Global;

/// Why a script is refused, or nothing where it is good.
fn refusal_of(alloc: Global, script: &[u8]) -> Option<ScriptErr> {
    if script.len() > SCRIPT_LIMIT {
        return Some(ScriptErr::NoMemory);
    }
    read_script(alloc, script).err()
}

/// As many nodes as a script may have.
const NODES_16: &[u8] = b"NODE NA;NODE NB;NODE NC;NODE ND;NODE NE;NODE NF;NODE NG;NODE NH;\
    NODE NI;NODE NJ;NODE NK;NODE NL;NODE NM;NODE NN;NODE NO;NODE NP;";

/// One node more.
const NODES_17: &[u8] = b"NODE NA;NODE NB;NODE NC;NODE ND;NODE NE;NODE NF;NODE NG;NODE NH;\
    NODE NI;NODE NJ;NODE NK;NODE NL;NODE NM;NODE NN;NODE NO;NODE NP;NODE NQ;";

/// Scripts, each with the line of its first bad command and the first reason that holds.
const BAD: [(&[u8], u32, Why); 37] = [
    (b"NODE A; NODE A;", 1, Why::Twice),
    (b"NODE A;\n\x01\n;", 2, Why::Byte),
    (b"NODE A;\n\n -- \xc3\n\n STOP A;", 5, Why::Byte),
    (b"NODE A;\nSTOP B; -- \xff", 2, Why::Unknown),
    (b"NODE A;\n-- fine\n-- \x7f\n", 3, Why::Byte),
    (b"NODE A;\nAT A SESSION 1: \n '\t';", 2, Why::Byte),
    (b"NODE A;\nAT A SESSION 1: \xa9;", 2, Why::Byte),
    (b"NODE A;\n'\n", 2, Why::Byte),
    (b"NODE A;\nSTOP A", 2, Why::Unended),
    (b"NODE A;\n--;\n  '", 3, Why::Unended),
    (b"HOLD ON;\nNODE", 2, Why::Unended),
    (b"HOLD ON;\r\rNODE;", 1, Why::LateNode),
    (b"NODE A; HOLD ON;\nnode 'x':;", 2, Why::LateNode),
    (b"HOLD ON;\nNODES;", 2, Why::Form),
    (b"\n\n;", 3, Why::Form),
    (b"NODE A;\nCUT A A;", 2, Why::Form),
    (b"NODE A;\nCUT B B;", 2, Why::Form),
    (b"NODE A;\nAT A SESSION 65: COMMIT;", 2, Why::Form),
    (b"NODE A UNDO 1 LINKS 2 UNDO 1;", 1, Why::Form),
    (b"NODE A STRENGTH 256;", 1, Why::Form),
    (b"NODE A LINKS 0;", 1, Why::Form),
    (b"LOSE 4294967296;", 1, Why::Form),
    (b"PUMP 99999999999999999999;", 1, Why::Form),
    (b"LOSE NEXT CLOSE FROM A TO A;", 1, Why::Form),
    (b"NODE A;\nCRASH A WRITE 0 KEEP 0;", 2, Why::Form),
    (b"NODE A;\nCRASH A WRITE 1 LEAVE '0';", 2, Why::Form),
    (b"NODE A;\nFAULT A CALL 0;", 2, Why::Form),
    (b"NODE A;\nCRASH B WRITE 1 KEEP 0;", 2, Why::Unknown),
    (b"NODE A;\nFAULT B CALL 1;", 2, Why::Unknown),
    (b"NODE A; NODE FROM;", 1, Why::Form),
    (b"NODE A; NODE B;\nNODE a;", 2, Why::Twice),
    (b"NODE A;\n\nSTOP B;", 3, Why::Unknown),
    (b"NODE A; JOIN A\n B;", 1, Why::Unknown),
    (b"LOSE NEXT ACK FROM A TO B;", 1, Why::Unknown),
    (b"AT A SESSION 1: COMMIT;", 1, Why::Unknown),
    (b"NODE A; GIVEUP AT B SESSION 1;", 1, Why::Unknown),
    (NODES_17, 1, Why::Many),
];

/// Scripts without a bad command.
const GOOD: [&[u8]; 9] = [
    b"",
    b" \t\r\n-- done; '",
    b"PUMP;PUMP 5;HOLD OFF;SHOW NET;",
    b"NODE A STRENGTH 0 LINKS 64 UNDO 1024; NODE B.C;",
    b"NODE A;--'\nAT A SESSION 64: ';' -- ;\n;",
    b"NODE A; LOSE NEXT ready FROM A TO A; DELIVER 4294967295; AGAIN 000;",
    b"NODE NODE; NODE AT; CUT NODE AT; SHOW PENDING AT;",
    b"NODE A; AT A SESSION 1: \xc3\xa9;",
    NODES_16,
];

fn first_wrong(alloc: Global) -> Option<&'static [u8]> {
    for (script, line, why) in &BAD {
        let (line, why) = (*line, *why);
        if refusal_of(alloc, script) != Some(ScriptErr::Bad { line, why }) {
            return Some(*script);
        }
    }
    None
}

fn first_refused(alloc: Global) -> Option<&'static [u8]> {
    for script in &GOOD {
        if refusal_of(alloc, script).is_some() {
            return Some(*script);
        }
    }
    None
}

#[test]
fn tells_the_first_reason(rt: HostRuntime) {
    assert!(rt; first_wrong(rt.alloc()).is_none());
}

#[test]
fn reads_good_scripts(rt: HostRuntime) {
    assert!(rt; first_refused(rt.alloc()).is_none());
}
