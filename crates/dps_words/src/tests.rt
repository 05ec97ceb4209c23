//! Words and their plans.
use crate::{Command, PlanRefusal, plan};
use std::alloc::Global;
use std::test::Fail;

// The command, the number and the number of the first file that the words ask for.
fn asked(alloc: Global, words: &[&str]) -> Result<Result<(Command, u32, u32), PlanRefusal>, Fail> {
    let mut given = Vec::new(alloc);
    for word in words {
        given.push(String::from_str(alloc, *word)?)?;
    }
    match plan(alloc, &given) {
        Ok(plan) => match plan.words.as_slice() {
            [file, ..] => Ok(Ok((plan.command, plan.number, *file))),
            [] => Err(Fail::from("the plan names no word")),
        },
        Err(refusal) => Ok(Err(refusal)),
    }
}

#[test]
fn words_have_their_plans(rt: HostRuntime) -> Result<(), Fail> {
    for (words, wanted) in [
        (["check", "F"].as_slice(), Ok((Command::Check, 0, 2))),
        (["theory", "--x"].as_slice(), Ok((Command::Theory, 0, 2))),
        (
            ["replay", "F", "--x"].as_slice(),
            Ok((Command::Replay, 0, 2)),
        ),
        (
            ["replay", "--semantics", "classic", "F", "T"].as_slice(),
            Ok((Command::Replay, 0, 4)),
        ),
        (["replay"].as_slice(), Err(PlanRefusal::Wrong(2))),
        (["replay", "F"].as_slice(), Err(PlanRefusal::Wrong(3))),
        (
            ["replay", "--model", "F"].as_slice(),
            Err(PlanRefusal::Wrong(2)),
        ),
        (
            ["replay", "--semantics", "eavesdrop", "F"].as_slice(),
            Err(PlanRefusal::Wrong(3)),
        ),
        (
            ["replay", "--semantics", "private", "--semantics"].as_slice(),
            Err(PlanRefusal::Wrong(4)),
        ),
        (
            ["replay", "F", "T", "U"].as_slice(),
            Err(PlanRefusal::Wrong(4)),
        ),
        (["gen", "0"].as_slice(), Ok((Command::Gen, 0, 2))),
        (["gen", "87"].as_slice(), Ok((Command::Gen, 87, 2))),
        (["gen", "88"].as_slice(), Err(PlanRefusal::Wrong(2))),
        (["gen", "07"].as_slice(), Err(PlanRefusal::Wrong(2))),
        (["gen", "88", "7"].as_slice(), Err(PlanRefusal::Wrong(2))),
        (["gen", "8", "7"].as_slice(), Err(PlanRefusal::Wrong(3))),
        ([].as_slice(), Err(PlanRefusal::Wrong(1))),
        (["check"].as_slice(), Err(PlanRefusal::Wrong(2))),
        (["check", "--x"].as_slice(), Err(PlanRefusal::Wrong(2))),
        (["theory", "F", "G"].as_slice(), Err(PlanRefusal::Wrong(3))),
    ] {
        assert_eq!(rt; asked(rt.alloc(), words)?, wanted);
    }
    Ok(())
}
