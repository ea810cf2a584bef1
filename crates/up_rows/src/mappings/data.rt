//! New fields, new globals and checks.

/// What comes of each mapping.
pub const ROWS: &str = r"
=== field of the old value
field item.weight = value * 2;
---
same
=== field of a global
field item.weight = n;
---
same
=== field of a pointer
field item.next = next;
---
same
=== field of null
field item.tag = NULL;
---
same
=== field of the literal 0
field item.next = 0;
---
map m entry 1: bad expression
=== struct pointer for any pointer
field item.tag = next;
---
map m entry 1: bad expression
=== field that is not there
field item.nope = 1;
---
map m entry 1: bad expression
=== field of a new field
field item.value = weight;
---
map m entry 1: bad expression
=== field of another type
field item.value = NULL;
---
map m entry 1: bad expression
=== struct that is not there
field nope.x = 1;
---
map m entry 1: unknown struct
=== old struct
field bag.size = 1;
---
map m entry 1: unknown struct
=== unmatched struct sees globals
field box.size = n;
---
same
=== unmatched struct sees no field
field box.size = size;
---
map m entry 1: bad expression
=== matched struct sees its fields
struct bag -> box; field box.size = size + 1;
---
struct bag -> box;
field box.size = size + 1;
=== match that comes later
field box.size = size + 1; struct bag -> box;
---
struct bag -> box;
field box.size = size + 1;
=== field twice
field item.weight = 1; field item.weight = 2;
---
map m entry 2: twice
=== fields in new order
field box.size = 1; field item.tag = NULL; field item.weight = 2;
---
field item.weight = 2;
field item.tag = NULL;
field box.size = 1;
=== init of a global
init total = n;
---
same
=== init of an element
init total = a[2];
---
same
=== init of a thread
init t = t;
---
same
=== init of a pointer
init head = head;
---
same
=== init of any pointer
init any = NULL;
---
same
=== init of another struct
init top = head;
---
map m entry 1: bad expression
=== init of matched structs
struct item -> box; init top = head;
---
struct item -> box;
init top = head;
=== init of an array
init a = 1;
---
map m entry 1: bad expression
=== init of an old global
init k = 1;
---
map m entry 1: unknown global
=== init of a mutex
init m = 1;
---
map m entry 1: unknown global
=== init by a new global
init total = total;
---
map m entry 1: bad expression
=== init by an array
init total = a;
---
map m entry 1: bad expression
=== init by a function
init total = add;
---
map m entry 1: bad expression
=== init of a thread by a number
init t = 1;
---
map m entry 1: bad expression
=== init twice
init total = 1; init total = 2;
---
map m entry 2: twice
=== least cause of a second init
init total = 1; init total = NULL;
---
map m entry 2: bad expression
=== inits in new order
init any = NULL; init total = 1; init n = 2;
---
init n = 2;
init total = 1;
init any = NULL;
=== check of a comparison
check n >= 3;
---
same
=== check of a number
check n;
---
same
=== check of a pointer
check head;
---
map m entry 1: bad expression
=== check of a name that is not there
check nope;
---
map m entry 1: bad expression
=== check of a slot
check i;
---
map m entry 1: bad expression
=== checks stay in order
check 2; function add -> none; check 1; check 2;
---
function add -> none;
check 2;
check 1;
check 2;
";
