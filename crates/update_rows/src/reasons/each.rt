//! Each reason, as its event and the report have it.

/// Its name, the mapping, and `done` or the reason, as the history and as the report have it.
pub const ROWS: &str = r"
=== nothing
---
done
=== thread 1 has no map
function w -> none;
---
1 1 0: thread 1 frame 0 w loop 1 unmapped
=== the call of a function that is gone has no map
function f -> none;
---
1 0 0: thread 0 frame 0 main call 3 unmapped
=== a mutex is held
mutex m -> none;
---
2 0: mutex m held
=== a mutex that another thread holds
mutex l -> none;
---
2 1: mutex l held
=== two mutexes are held
mutex l -> none; mutex m -> none;
---
2 0: mutex m held
=== a mutex is free
mutex k -> none;
---
done
=== a mutex under another name
mutex m -> k;
---
done
=== an object of a removed struct
struct bag -> none;
---
3 3: object 3 removed
=== objects of two removed structs
struct bag -> none; struct item -> none;
---
3 1: object 1 removed
=== a freed object of a removed struct
struct coin -> none;
---
done
=== a check is 0
check zero;
---
4 1 0: check 1 is 0
=== a check is not 1
check n + 2;
---
done
=== a check is less than 0
check -1;
---
done
=== the second check
check 1; check n > 100;
---
4 2 0: check 2 is 0
=== the first of two checks
check zero; check 1 / zero;
---
4 1 0: check 1 is 0
=== the first of two checks that trap
check 1; check gone->value; check 1 / zero;
---
4 2 4: check 2 freed
=== a check traps
check 1 / zero;
---
4 1 1: check 1 divide
=== a new global traps
init total = 1 / zero;
---
5 0 1: global total divide
=== a later global traps
init extra = 1 / zero;
---
5 4 1: global extra divide
=== the first of two globals
init extra = nil->value; init total = 1 / zero;
---
5 0 1: global total divide
=== a pointer traps
init last = gone->next;
---
5 3 4: global last freed
=== a field traps
field bag.sum = 1 / zero;
---
6 3 1 1: field 3 bag.sum divide
=== the lowest object
field bag.sum = 1 / zero; field item.weight = nil->value;
---
6 1 1 3: field 1 item.weight null
=== not of a freed object
field item.weight = 10 / value;
---
6 4 1 1: field 4 item.weight divide
=== a later object of the same struct
field item.rank = 8 / value; field bag.size = 1 / zero;
---
6 3 0 1: field 3 bag.size divide
=== the first of two fields
field item.rank = nil->value; field item.weight = 1 / zero;
---
6 1 1 1: field 1 item.weight divide
=== a field of a renamed struct
struct bag -> box; field box.size = size / zero;
---
6 3 0 1: field 3 box.size divide
=== a field of a struct without objects
field box.size = 1 / zero;
---
done
=== a field of a freed coin
field coin.side = 1 / zero;
---
done
=== a slot traps
point f loop 1 -> loop 1 { r = 1 / (x - y); };
---
7 0 1 2 1: slot thread 0 frame 1 r divide
=== the first of two slots
point f loop 1 -> loop 1 { r = 1 / zero; y = gone->value; };
---
7 0 1 1 4: slot thread 0 frame 1 y freed
=== the outer of two frames
point f loop 1 -> loop 1 { x = 1 / zero; };
point main call 3 -> call 3 { c = nil->value; };
---
7 0 0 0 3: slot thread 0 frame 0 c null
=== a slot of thread 1
point w loop 1 -> loop 1 { i = 1 << i - i + 32; };
---
7 1 0 1 2: slot thread 1 frame 0 i shift
=== the lower of two threads
point w loop 1 -> loop 1 { i = 1 / zero; };
point f loop 1 -> loop 1 { r = a[3]; };
---
7 0 1 2 6: slot thread 0 frame 1 r bounds
";
