use search_core::{CoreFault, CoreNote, CoreState, Event};
use std::alloc::Global;
use std::process::Abort;
use std::test::Fail;

fn core_after(
    alloc: Global,
    workers: u8,
    budget: u16,
    events: &[Event],
) -> Result<CoreState, Fail> {
    let workers = u32::from(workers % 16) + 1;
    let mut core = CoreState::new(alloc, workers, u32::from(budget))?;
    for &event in events {
        core.step(event)?;
    }
    Ok(core)
}

// A note of a worker on a node, with its ticket.
fn note(worker: u32, id: u32, ticket: Option<u32>) -> CoreNote {
    CoreNote { worker, id, ticket }
}

fn has_notes(rt: &impl Abort, core: &CoreState, notes: &[CoreNote]) {
    assert_eq!(rt; core.note_count() as usize, notes.len());
    for (k, &expected) in notes.iter().enumerate() {
        let k = k as u32;
        assert!(rt; k < core.note_count());
        assert_eq!(rt; core.note(k), expected);
    }
}

#[test]
fn one_worker_with_one_ticket_notes_three_nodes(rt: HostRuntime) -> Result<(), Fail> {
    let events = [
        Event::Ticket { w: 0 },
        Event::Split { w: 0, kept: false },
        Event::Close { w: 0 },
        Event::Take { w: 0 },
        Event::Ticket { w: 0 },
        Event::Close { w: 0 },
    ];
    let mut core = core_after(rt.alloc(), 0, 1, &events)?;
    has_notes(
        &rt,
        &core,
        &[note(0, 0, Some(0)), note(0, 1, None), note(0, 2, None)],
    );
    assert_eq!(rt; core.step(Event::Take { w: 0 }), Err(CoreFault::NotEnabled));
    Ok(())
}

#[test]
fn two_workers_share_two_tickets(rt: HostRuntime) -> Result<(), Fail> {
    let events = [
        Event::Ticket { w: 0 },
        Event::Split { w: 0, kept: false },
        Event::Steal { w: 1, from: 0 },
        Event::Ticket { w: 1 },
        Event::Split { w: 1, kept: true },
        Event::Close { w: 1 },
        Event::Take { w: 1 },
        Event::Close { w: 1 },
        Event::Close { w: 0 },
    ];
    let mut core = core_after(rt.alloc(), 1, 2, &events)?;
    has_notes(
        &rt,
        &core,
        &[
            note(0, 0, Some(0)),
            note(1, 2, Some(1)),
            note(1, 3, None),
            note(1, 4, None),
            note(0, 1, None),
        ],
    );
    let own = Event::Steal { w: 0, from: 0 };
    assert_eq!(rt; core.step(own), Err(CoreFault::NotEnabled));
    Ok(())
}

#[test]
fn refuses_what_cannot_come(rt: HostRuntime) -> Result<(), Fail> {
    let mut core = core_after(rt.alloc(), 1, 2, &[])?;
    for event in [
        Event::Take { w: 0 },
        Event::Take { w: 1 },
        Event::Steal { w: 1, from: 0 },
        Event::Steal { w: 1, from: 2 },
        Event::Ticket { w: 1 },
        Event::Split { w: 0, kept: false },
        Event::Close { w: 1 },
        Event::Offer { w: 2, margin: 5 },
        Event::See { w: 2 },
        Event::PushCut { w: 2 },
    ] {
        assert_eq!(rt; core.step(event), Err(CoreFault::NotEnabled), "{event:?}");
    }
    for event in [
        Event::Offer { w: 1, margin: -5 },
        Event::See { w: 0 },
        Event::PushCut { w: 1 },
    ] {
        assert_eq!(rt; core.step(event), Ok(()), "{event:?}");
    }
    Ok(())
}
