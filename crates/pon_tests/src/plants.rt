//! Plants with ample memory: rows of steps, each with its expected answer.

use crate::acts::{Act, Why, event, gap, profile, refusal};
use pon_admit::PortCfg;
use pon_plant::{Plant, PlantFault, Step, StepFault};
use pon_state::Reply;
use pon_units::{FrameNo, PortNo};
use std::alloc::Global;
use std::process::Abort;

// The expected answer to a step.
#[derive(Clone, Copy)]
enum Told {
    Taken,
    // A map whose one grant has this number of words.
    Words(u16),
    // The line of the port failed by this cause.
    Down(u8),
    NoSuchPort,
}

type Row = (u8, Act, Told);

// Returns the configuration and the first frame of a port.
fn cfg(rt: &impl Abort) -> (PortCfg, FrameNo) {
    let gap = gap(rt, 16);
    let profile = profile(rt);
    (PortCfg { gap, profile }, FrameNo::new(0))
}

fn plant_of(rt: &impl Abort, alloc: Global, ports: usize) -> Result<Plant, PlantFault> {
    let mut opened = Vec::new(alloc);
    for _ in 0..ports {
        opened.push(cfg(rt)).expect(rt, "memory");
    }
    Plant::open(alloc, opened.as_slice())
}

fn number(rt: &impl Abort, port: u8) -> PortNo {
    PortNo::new(port).expect(rt, "a port")
}

fn step(rt: &impl Abort, port: u8, act: Act) -> Step {
    Step {
        port: number(rt, port),
        event: event(rt, act),
    }
}

fn steps(rt: &impl Abort, alloc: Global, rows: &[Row]) -> Vec<Step> {
    let mut steps = Vec::new(alloc);
    for (port, act, _) in rows {
        steps.push(step(rt, *port, *act)).expect(rt, "memory");
    }
    steps
}

fn is_fault(rt: &impl Abort, fault: StepFault, told: Told) -> bool {
    match told {
        Told::Down(number) => fault == StepFault::Refused(refusal(rt, Why::PortDown(number))),
        Told::NoSuchPort => fault == StepFault::NoSuchPort,
        _ => false,
    }
}

fn is_reply(reply: &Reply, told: Told) -> bool {
    match (reply, told) {
        (Reply::Taken, Told::Taken) => true,
        (Reply::Map(made), Told::Words(words)) => {
            made.map.rows().first().map(|row| row.grant()) == Some(words)
        }
        _ => false,
    }
}

fn is_told(rt: &impl Abort, answer: &Result<Reply, StepFault>, told: Told) -> bool {
    match answer {
        Ok(reply) => is_reply(reply, told),
        Err(fault) => is_fault(rt, *fault, told),
    }
}

// Runs the steps, and compares each answer.
fn assert_told(rt: &impl Abort, alloc: Global, plant: &mut Plant, rows: &[Row]) {
    let steps = steps(rt, alloc, rows);
    let answers = plant.run(alloc, steps.as_slice()).expect(rt, "memory");
    for (k, (answer, row)) in answers.iter().zip(rows).enumerate() {
        assert!(rt; is_told(rt, answer, row.2), "row {k}");
    }
    assert!(rt; answers.len() == rows.len());
}

fn has_a_64th_port(rt: &impl Abort, plant: &mut Plant) -> bool {
    plant.step(step(rt, 63, Act::MakeMap)).is_ok()
}

fn opens(rt: &impl Abort, alloc: Global, ports: usize) -> bool {
    let mut plant = plant_of(rt, alloc, ports).ok().expect(rt, "a plant");
    let is_last = ports == 64;
    plant.count() == ports
        && plant.port(number(rt, 63)).is_some() == is_last
        && has_a_64th_port(rt, &mut plant) == is_last
}

#[test]
fn has_1_to_64_ports(rt: HostRuntime) {
    for ports in [0, 65] {
        let refused = plant_of(&rt, rt.alloc(), ports).err();
        assert!(rt; refused == Some(PlantFault::Ports), "{ports}");
    }
    for ports in [1, 64] {
        assert!(rt; opens(&rt, rt.alloc(), ports), "{ports}");
    }
}

fn kept(rt: &impl Abort, plant: &Plant, port: u8) -> Option<usize> {
    Some(plant.port(number(rt, port))?.history().len())
}

const REPORT: Act = Act::Report(0, 5, &[Some(100)]);

static TWO_PORTS: [Row; 12] = [
    (1, Act::AdmitLoaded, Told::Taken),
    (0, Act::AdmitLoaded, Told::Taken),
    (0, Act::MakeMap, Told::Words(11)),
    (1, Act::MakeMap, Told::Words(11)),
    (0, REPORT, Told::Taken),
    (1, REPORT, Told::Taken),
    (1, Act::Fail(4), Told::Taken),
    (1, Act::MakeMap, Told::Down(4)),
    (2, Act::MakeMap, Told::NoSuchPort),
    (0, Act::MakeMap, Told::Words(31)),
    (1, Act::Restore, Told::Taken),
    (1, Act::MakeMap, Told::Words(11)),
];

#[test]
fn a_failed_port_changes_no_other(rt: HostRuntime) {
    let mut plant = plant_of(&rt, rt.alloc(), 2).ok().expect(&rt, "a plant");
    assert_told(&rt, rt.alloc(), &mut plant, &TWO_PORTS);
    assert!(rt; kept(&rt, &plant, 0) == Some(4) && kept(&rt, &plant, 1) == Some(6));
}

static ONE_PORT: [Row; 4] = [
    (0, Act::AdmitLoaded, Told::Taken),
    (0, Act::MakeMap, Told::Words(11)),
    (0, REPORT, Told::Taken),
    (0, Act::MakeMap, Told::Words(31)),
];

#[test]
fn a_port_alone_has_the_same_answers(rt: HostRuntime) {
    let mut plant = plant_of(&rt, rt.alloc(), 1).ok().expect(&rt, "a plant");
    assert_told(&rt, rt.alloc(), &mut plant, &ONE_PORT);
    let refused = plant.step(step(&rt, 1, Act::MakeMap)).err();
    assert!(rt; refused == Some(StepFault::NoSuchPort));
}
