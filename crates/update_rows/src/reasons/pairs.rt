//! Of two reasons the one that comes earlier in their order is told, wherever it is found.

/// Its name, the mapping, and `done` or the reason, as the history and as the report have it.
pub const ROWS: &str = r"
=== unmapped and held
function w -> none; mutex m -> none;
---
1 1 0: thread 1 frame 0 w loop 1 unmapped
=== unmapped and removed
struct item -> none; function w -> none;
---
1 1 0: thread 1 frame 0 w loop 1 unmapped
=== unmapped and a check
check zero; function w -> none;
---
1 1 0: thread 1 frame 0 w loop 1 unmapped
=== unmapped in thread 1 and a slot in thread 0
function w -> none; point f loop 1 -> loop 1 { r = 1 / zero; };
---
1 1 0: thread 1 frame 0 w loop 1 unmapped
=== held and removed
struct item -> none; mutex l -> none;
---
2 1: mutex l held
=== held and a check
check 1 / zero; mutex m -> none;
---
2 0: mutex m held
=== removed and a check
check zero; struct bag -> none;
---
3 3: object 3 removed
=== removed and a field
field item.weight = 1 / zero; struct bag -> none;
---
3 3: object 3 removed
=== a check and a global
init total = 1 / zero; check zero;
---
4 1 0: check 1 is 0
=== the second check and a global
init total = 1 / zero; check 1; check a[3];
---
4 2 6: check 2 bounds
=== a check and a slot
point main call 3 -> call 3 { c = 1 / zero; }; check 1 / zero;
---
4 1 1: check 1 divide
=== a global and a field
field item.weight = 1 / zero; init extra = gone->value;
---
5 4 4: global extra freed
=== a global and a slot
point main call 3 -> call 3 { c = 1 / zero; };
init extra = gone->value;
---
5 4 4: global extra freed
=== a field and a slot
point main call 3 -> call 3 { c = 1 / zero; };
field item.rank = a[value];
---
6 1 3 6: field 1 item.rank bounds
=== a slot alone
check 1;
init total = n;
field item.rank = n;
point w loop 1 -> loop 1 { i = 1 / zero; };
---
7 1 0 1 1: slot thread 1 frame 0 i divide
=== all of them
function w -> none;
struct bag -> none;
mutex m -> none;
check zero;
init total = 1 / zero;
field item.rank = 1 / zero;
point main call 3 -> call 3 { c = 1 / zero; };
---
1 1 0: thread 1 frame 0 w loop 1 unmapped
=== none of them
function w -> w;
struct coin -> none;
mutex k -> none;
check 1;
init total = n;
field item.rank = value;
point main call 3 -> call 3 { c = n; };
---
done
";
