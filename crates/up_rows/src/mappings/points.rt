//! Points and their fills.

/// What comes of each mapping.
pub const ROWS: &str = r"
=== loop to its loop
point tick loop 1 -> loop 1;
---
same
=== loop to another
point tick loop 1 -> loop 2;
---
same
=== loop to an entry
point tick loop 1 -> entry;
---
same
=== entry to a loop
point tick entry -> loop 1;
---
same
=== block to a block
point main block 1 -> block 1;
---
same
=== block to an entry
point main block 1 -> entry;
---
same
=== call to its call
point tick call 1 -> call 1;
---
same
=== old loop that is not there
point tick loop 2 -> loop 1;
---
map m entry 1: unknown point
=== new loop that is not there
point tick loop 1 -> loop 3;
---
map m entry 1: unknown point
=== loop 0
point tick loop 0 -> loop 1;
---
map m entry 1: unknown point
=== block that is not there
point main block 2 -> block 1;
---
map m entry 1: unknown point
=== hexadecimal and octal
point tick loop 0x1 -> loop 02;
---
point tick loop 1 -> loop 2;
=== loop to a call
point tick loop 1 -> call 1;
---
map m entry 1: kind differs
=== call to a loop
point tick call 1 -> loop 1;
---
map m entry 1: kind differs
=== call to an entry
point tick call 1 -> entry;
---
map m entry 1: kind differs
=== call of another function
point main call 2 -> call 2;
---
map m entry 1: callee differs
=== call of a later function
point main call 1 -> call 2;
---
map m entry 1: callee differs
=== call of the matched function
function sub -> add; point main call 2 -> call 2;
---
function sub -> add;
point main call 2 -> call 2;
=== call of a function that is gone
function sub -> none; point main call 2 -> call 2;
---
map m entry 2: callee differs
=== point of an unknown function
point nope loop 1 -> loop 1;
---
map m entry 1: unknown function
=== point of a new function
point idle entry -> entry;
---
map m entry 1: unknown function
=== point of a function that is gone
function tick -> none; point tick loop 1 -> loop 1;
---
map m entry 2: unknown function
=== point of another match
function sub -> none; function add -> sub; point add entry -> entry { d = r; };
---
function add -> sub;
function sub -> none;
point add entry -> entry { d = r; };
=== old point twice
point tick loop 1 -> loop 1; point tick loop 1 -> loop 2;
---
map m entry 2: twice
=== new point twice
point tick loop 1 -> loop 2; point tick entry -> loop 2;
---
point tick entry -> loop 2;
point tick loop 1 -> loop 2;
=== points in old order
point main block 1 -> block 1;
point tick loop 1 -> loop 1;
point tick call 1 -> call 1;
point tick entry -> entry;
---
point tick entry -> entry;
point tick call 1 -> call 1;
point tick loop 1 -> loop 1;
point main block 1 -> block 1;
=== least cause: kind before fill
point main call 2 -> block 1 { x = 1; };
---
map m entry 1: kind differs
=== least cause: callee before fill
point main call 2 -> call 2 { x = 1; };
---
map m entry 1: callee differs
=== least cause: fill before twice
point tick loop 1 -> loop 1 { x = 1; x = 2; };
---
map m entry 1: bad expression
=== no fills
point tick loop 1 -> loop 1 { };
---
point tick loop 1 -> loop 1;
=== slot of a global
point tick loop 1 -> loop 1 { j = n * 10; };
---
same
=== slot of a slot
point tick loop 1 -> loop 1 { j = i; };
---
same
=== slot of the second of a name
point tick loop 1 -> loop 1 { j = i.2; };
---
same
=== slot of the second of a name in hexadecimal
point tick loop 1 -> loop 1 { j = i.0x2; };
---
point tick loop 1 -> loop 1 { j = i.2; };
=== first of a name by number
point tick loop 1 -> loop 1 { j = i.1; };
---
map m entry 1: bad expression
=== zeroth of a name
point tick loop 1 -> loop 1 { j = i.0; };
---
map m entry 1: bad expression
=== third of a name
point tick loop 1 -> loop 1 { j = i.3; };
---
map m entry 1: bad expression
=== temporary that is not there
point tick loop 1 -> loop 1 { j = .1; };
---
map m entry 1: bad expression
=== slot that is not there
point tick loop 1 -> loop 1 { x = 1; };
---
map m entry 1: bad expression
=== old slot that is filled
point tick loop 1 -> loop 1 { i.2 = 1; };
---
map m entry 1: bad expression
=== slot twice
point tick loop 1 -> loop 1 { j = 1; j = 2; };
---
map m entry 1: twice
=== slots in new order
point tick loop 1 -> loop 1 { v = NULL; j = 1; i = 2; };
---
point tick loop 1 -> loop 1 { i = 2; j = 1; v = NULL; };
=== pointer of a pointer
point tick loop 1 -> loop 1 { it = head->next; };
---
same
=== pointer of the literal 0
point tick loop 1 -> loop 1 { it = 0; };
---
map m entry 1: bad expression
=== pointer of a number
point tick loop 1 -> loop 1 { j = head; };
---
map m entry 1: bad expression
=== any pointer of a struct pointer
point tick loop 1 -> loop 1 { v = head; };
---
map m entry 1: bad expression
=== pointer to a struct that is gone
struct item -> none; point tick loop 1 -> loop 1 { it = head; };
---
map m entry 2: bad expression
=== parameter
point work entry -> entry { p = p; w = 1; };
---
same
";
