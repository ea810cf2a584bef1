//! What becomes of objects: new fields, freed objects, other names; and of the input.

mod sources;

use crate::objects::sources::{
    EXCHANGED, FREES_AGAIN, ITEMS, LIST, NODES, READS, READS_FREED, READS_ON, REORDERED, WEIGHED,
};
use crate::tool::Upstare;
use row_calls::{Programs, RowsDiffer, UpdateRow, differing_updates, judged};

/// Each update, and what the run comes to.
#[rattlefmt::skip]
const ROWS: &[UpdateRow<'static>] = &[
    UpdateRow {
        name: "every living object gets a new field",
        programs: Programs {
            old: ITEMS,
            new: WEIGHED,
            map: "field item.weight = value * 2; point main loop 1 -> loop 1;",
        },
        words: "--at 12 --input i",
        plan: "",
        wanted: r"
10
err: end exit 0 steps 16 target - update done
status 0
",
        events: "12 steps, request",
    },
    UpdateRow {
        name: "a new field that nothing fills is 0",
        programs: Programs { old: ITEMS, new: WEIGHED, map: "point main loop 1 -> loop 1;" },
        words: "--at 12 --input i",
        plan: "",
        wanted: r"
0
err: end exit 0 steps 16 target - update done
status 0
",
        events: "12 steps, request",
    },
    UpdateRow {
        name: "fields by their names and types",
        programs: Programs { old: LIST, new: REORDERED, map: "" },
        words: "--at 37 --input i",
        plan: "",
        wanted: r"
3 0 0,2 0 0,1 0 0, 3 3 0
err: end exit 0 steps 62 target - update done
status 0
",
        events: "37 steps, request",
    },
    UpdateRow {
        name: "fields filled from the old object",
        programs: Programs {
            old: LIST,
            new: REORDERED,
            map: r"
field item.weight = value * 10 + rank;
field bag.sum = size + first->value;
",
        },
        words: "--at 37 --input i",
        plan: "",
        wanted: r"
3 36 0,2 24 0,1 12 0, 3 3 6
err: end exit 0 steps 62 target - update done
status 0
",
        events: "37 steps, request",
    },
    UpdateRow {
        name: "fields filled from the old state, as it was before any of them",
        programs: Programs {
            old: LIST,
            new: REORDERED,
            map: "field item.value = head->value + value; field item.weight = value;",
        },
        words: "--at 37 --input i",
        plan: "",
        wanted: r"
6 3 0,5 2 0,4 1 0, 6 3 0
err: end exit 0 steps 62 target - update done
status 0
",
        events: "37 steps, request",
    },
    UpdateRow {
        name: "fields filled from globals",
        programs: Programs {
            old: LIST,
            new: REORDERED,
            map: r"
field item.weight = n + bag->size; field item.rank = head; field bag.size = 4;
init last = head;
",
        },
        words: "--at 37 --input i",
        plan: "",
        wanted: r"
3 4 1,2 4 1,1 4 1, 3 4 0
4
err: end exit 0 steps 63 target - update done
status 0
",
        events: "37 steps, request",
    },
    UpdateRow {
        name: "an object that no frame reaches gets its field",
        programs: Programs {
            old: LIST,
            new: REORDERED,
            map: r"
init last = head->next->next;
init head = NULL;
field item.weight = value + 40;
",
        },
        words: "--at 37 --input i",
        plan: "",
        wanted: r"
 3 3 0
41
err: end exit 0 steps 51 target - update done
status 0
",
        events: "37 steps, request",
    },
    UpdateRow {
        name: "structs under other names",
        programs: Programs {
            old: LIST,
            new: NODES,
            map: "struct item -> node; struct bag -> box; field node.self = head;",
        },
        words: "--at 37 --input i",
        plan: "",
        wanted: r"
3 1,2 1,1 1, 3
err: end exit 0 steps 62 target - update done
status 0
",
        events: "37 steps, request",
    },
    UpdateRow {
        name: "structs that exchange their names",
        programs: Programs {
            old: LIST,
            new: EXCHANGED,
            map: "struct item -> bag; struct bag -> item;",
        },
        words: "--at 37 --input i",
        plan: "",
        wanted: r"
3 3 6
err: end exit 0 steps 47 target - update done
status 0
",
        events: "37 steps, request",
    },
    UpdateRow {
        name: "a freed object stays freed where it is read",
        programs: Programs { old: LIST, new: READS_FREED, map: "field item.weight = 1;" },
        words: "--at 37 --input i",
        plan: "",
        wanted: r"
new
err: end trap freed thread 0 steps 46 target - update done
status 6
",
        events: "37 steps, request",
    },
    UpdateRow {
        name: "a freed object stays freed where it is freed again",
        programs: Programs { old: LIST, new: FREES_AGAIN, map: "field item.weight = 1;" },
        words: "--at 37 --input i",
        plan: "",
        wanted: r"
new
err: end trap freed thread 0 steps 46 target - update done
status 6
",
        events: "37 steps, request",
    },
    UpdateRow {
        name: "what was printed and what is left to read stay",
        programs: Programs { old: READS, new: READS_ON, map: "point main loop 1 -> loop 1;" },
        words: "--at 4 --input i",
        plan: "",
        wanted: r"
old 120
new 121
new 122
err: end exit 0 steps 20 target - update done
status 0
",
        events: "4 steps, request",
    },
];

#[test]
fn objects_are_mapped(rt: HostRuntime) -> Result<(), RowsDiffer> {
    judged(differing_updates(rt.alloc(), &Upstare, ROWS))
}
