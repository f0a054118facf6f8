//! Cases are text: a row of a table, or a line of its own. A further case adds nothing to prove.
use crate::script::{Part, first_wrong};
use crate::{
    damage, devices, doubling, extending, limits, lines, merging, refusals, replies, samples,
    tails, upgrading,
};
use std::test::Fail;
use track_types::Memory;

// The first row that is not so, and its line, of several scripts.
fn first_of_all(
    rt: &HostRuntime,
    scripts: &[&[Part]],
) -> Result<Option<(&'static str, &'static str)>, Memory> {
    for &script in scripts {
        let wrong = first_wrong(rt, script)?;
        if wrong.is_some() {
            return Ok(wrong);
        }
    }
    Ok(None)
}

#[test]
fn lines_have_their_replies(rt: HostRuntime) -> Result<(), Fail> {
    let scripts: [&[Part]; 2] = [&replies::SCRIPT, &lines::SCRIPT];
    assert_eq!(rt; first_of_all(&rt, &scripts)?, None);
    Ok(())
}

#[test]
fn an_index_is_saved_summed_and_joined(rt: HostRuntime) -> Result<(), Fail> {
    let scripts: [&[Part]; 6] = [
        &samples::SCRIPT,
        &upgrading::SCRIPT,
        &doubling::SCRIPT,
        &tails::SCRIPT,
        &merging::SCRIPT,
        &extending::SCRIPT,
    ];
    assert_eq!(rt; first_of_all(&rt, &scripts)?, None);
    Ok(())
}

#[test]
fn a_call_is_refused_for_its_cause(rt: HostRuntime) -> Result<(), Fail> {
    let scripts: [&[Part]; 4] = [
        &refusals::SCRIPT,
        &limits::SCRIPT,
        &damage::SCRIPT,
        &devices::SCRIPT,
    ];
    assert_eq!(rt; first_of_all(&rt, &scripts)?, None);
    Ok(())
}
