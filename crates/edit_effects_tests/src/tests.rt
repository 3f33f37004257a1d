//! What worked edits lay on the start, where intervention 1 sets the cell (0, 0) to 1 at generation
//! 4.
use desk_events::Mark;
use edit_effects::{cells_at, felt_from, keeps_arrival, lays_alike, leaves_after, touched_by};
use schedule::{CellSet, Document, Edit, Listing};
use std::alloc::Global;
use std::process::Abort;

/// The generation at which intervention 1 acts after an edit, the cell (x, 0) that it sets to a
/// state, a generation, and whether the edit lays the same there.
type Case = (u64, i64, u16, u64, bool);

const CASES: &[Case] = &[
    (4, 0, 1, 4, true),
    (4, 1, 1, 4, false),
    (4, 0, 0, 4, false),
    (5, 0, 1, 4, false),
    (5, 0, 1, 5, false),
    (5, 0, 0, 5, true),
    (5, 0, 1, 6, true),
];

fn cell(rt: &impl Abort, alloc: Global, x: i64, state: u16) -> Listing<CellSet> {
    let mut cells = Vec::new(alloc);
    cells.push(CellSet { x, y: 0, state }).expect(rt, "memory");
    Listing::from_vec(cells)
}

fn lays(rt: &impl Abort, alloc: Global, document: &Document, edit: &Edit, mark: Mark) -> bool {
    document.check(edit).expect(rt, "an edit that fits");
    lays_alike(alloc, document, edit, mark, document.start()).expect(rt, "memory")
}

fn check_case(rt: &impl Abort, alloc: Global, document: &Document, case: &Case) {
    let edit = Edit::change_intervention(1, case.0, cell(rt, alloc, case.1, case.2));
    let found = lays(rt, alloc, document, &edit, Mark::at(0, case.3));
    assert!(rt; found == case.4, "{case:?}");
    // It is felt from 4 on, where the intervention acts first, before the edit.
    let felt = felt_from(document, &edit);
    assert!(rt;
        felt == Some(Mark::at(0, 4)),
        "{case:?}: felt from {felt:?}"
    );
    assert!(rt;
        touched_by(document, &edit).is_some(),
        "{case:?}: nothing is touched"
    );
}

fn check_kept(rt: &impl Abort, document: &Document) {
    let felt = Some(Mark::at(0, 4));
    assert!(rt;
        keeps_arrival(document, felt, Mark::at(0, 4)),
        "what arrives at 4 stays"
    );
    assert!(rt;
        !keeps_arrival(document, felt, Mark::at(0, 5)),
        "what arrives at 5 is felt"
    );
    assert!(rt;
        leaves_after(document, felt, Mark::at(0, 3)),
        "what leaves 3 stays"
    );
    assert!(rt;
        !leaves_after(document, felt, Mark::at(0, 4)),
        "what leaves 4 is felt"
    );
}

#[test]
fn changes_of_an_intervention(rt: HostRuntime) {
    let mut document = Document::opening(rt.alloc(), 0).expect(&rt, "memory");
    let edit = Edit::insert_intervention(0, 4, cell(&rt, rt.alloc(), 0, 1));
    document.apply(&edit).expect(&rt, "an edit that fits");
    for case in CASES {
        check_case(&rt, rt.alloc(), &document, case);
    }
    check_kept(&rt, &document);
    let cells = cells_at(rt.alloc(), document.interventions(), Mark::at(0, 4)).expect(
        &rt, "memory",
    );
    assert!(&rt; cells.as_slice().len() == 1, "one cell is set at 4");
}
