//! Runs of many workers, whose outcomes are the same in each order.

use crate::runs::{Ending, run};
use seuss_base::FreeGate;
use std::alloc::{AllocError, Global};
use std::test::Fail;

/// A cat with sixteen actions, each of which counts.
const COUNTERS: u32 = 16;

/// How many boxes a chain of calls goes through.
const LINKS: u32 = 60;

/// How many lines of a report end so.
fn count(ending: &Ending, end: &str) -> usize {
    ending
        .report
        .lines()
        .filter(|line| line.ends_with(end))
        .count()
}

/// A text with sixteen boxes, each with sixteen actions that count.
fn many_actions(alloc: Global) -> Result<String, AllocError> {
    let mut text = String::from_str(alloc, "seuss 1\ncat C\n  var n : int\n")?;
    for action in 0..COUNTERS {
        let line = format!(in alloc; "  action a{action} when true -> n := n + 1 end\n")?;
        text.push_str(line.as_str())?;
    }
    text.push_str("end\n")?;
    for number in 0..COUNTERS {
        text.push_str(format!(in alloc; "box x{number} : C\n")?.as_str())?;
    }
    Ok(text)
}

/// A text of which one attempt ends in this way, and fifteen others go on.
fn stopped(alloc: Global, body: &str) -> Result<String, AllocError> {
    let mut text = String::from_str(alloc, "seuss 1\ncat C\n  var n : int\n")?;
    text.push_str("  action tick when true -> n := n + 1 end\nend\ncat S\n  var n : int\n")?;
    text.push_str(format!(in alloc; "  action stop when true -> {body} end\nend\n")?.as_str())?;
    for number in 1..COUNTERS {
        text.push_str(format!(in alloc; "box x{number} : C\n")?.as_str())?;
    }
    text.push_str("box s : S\n")?;
    Ok(text)
}

/// The deepest text: calls through sixty boxes, `if`s and marks of an expression in one another.
fn deepest(alloc: Global) -> Result<String, AllocError> {
    let ifs = "if true then ".repeat(alloc, 64)?;
    let ends = "end ".repeat(alloc, 64)?;
    let left = "(".repeat(alloc, 255)?;
    let right = ")".repeat(alloc, 255)?;
    let mut text = String::from_str(
        alloc,
        "seuss 1\ncat L0\n  var n : int\n  total go(x : int) is\n",
    )?;
    text.push_str(format!(in alloc;
        "    {ifs} n := {left}x{right} {ends}\n  end\nend\n"
    )?.as_str())?;
    for link in 1..LINKS {
        let next = link - 1;
        let line = format!(in alloc;
            "cat L{link}(next : L{next}) total go(x : int) is next.go(x) end end\n"
        )?;
        text.push_str(line.as_str())?;
    }
    let last = LINKS - 1;
    let line = format!(in alloc;
        "cat A(next : L{last}) action a when true -> next.go(7) end end\nbox l0 : L0\n"
    )?;
    text.push_str(line.as_str())?;
    for link in 1..LINKS {
        let next = link - 1;
        text.push_str(format!(in alloc; "box l{link} : L{link}(l{next})\n")?.as_str())?;
    }
    text.push_str(format!(in alloc; "box a : A(l{last})\nbox b : A(l{last})\n")?.as_str())?;
    Ok(text)
}

#[test]
fn workers_come_to_an_end(rt: HostRuntime) -> Result<(), Fail> {
    let alloc = rt.alloc();
    let none = run(&rt, alloc, "run 2 16", "seuss 1\n", &FreeGate)?;
    assert!(rt; none.status == 0 && none.report.as_str() == "round 1\nround 2\ndone\n");
    let all = run(
        &rt,
        alloc,
        "run 2 16",
        many_actions(alloc)?.as_str(),
        &FreeGate,
    )?;
    assert!(rt; all.status == 0 && count(&all, " accepted") == 512 && count(&all, ".n = 32") == 16);
    Ok(())
}

#[test]
fn an_attempt_stops_a_run_beside_others(rt: HostRuntime) -> Result<(), Fail> {
    let alloc = rt.alloc();
    let trap = run(
        &rt,
        alloc,
        "run 3 16",
        stopped(alloc, "n := n / n")?.as_str(),
        &FreeGate,
    )?;
    assert!(rt;
        trap.status == 1
            && trap
                .report
                .ends_with("s.n = 0\ntrapped s.stop zero_divisor\n")
    );
    let spent = run(
        &rt,
        alloc,
        "run 3 16",
        stopped(alloc, "while true do end")?.as_str(),
        &FreeGate,
    )?;
    assert!(rt; spent.status == 2 && spent.report.ends_with("s.n = 0\nspent s.stop\n"));
    Ok(())
}

#[test]
fn the_deepest_text_runs_on_workers(rt: HostRuntime) -> Result<(), Fail> {
    let alloc = rt.alloc();
    let deep = run(&rt, alloc, "run 2 16", deepest(alloc)?.as_str(), &FreeGate)?;
    assert!(rt;
        deep.status == 0 && count(&deep, " accepted") == 4 && count(&deep, "l0.n = 7") == 1
    );
    Ok(())
}
