//! Functions, structs, globals and mutexes that are matched.

/// What comes of each mapping.
pub const ROWS: &str = r"
=== nothing
---

=== a comment
/* nothing */
---

=== function kept
function add -> add;
---
same
=== function renamed
function add -> sub;
---
same
=== function gone
function add -> none;
---
same
=== functions exchanged
function sub -> add; function add -> sub;
---
function add -> sub;
function sub -> add;
=== unknown old function
function nope -> add;
---
map m entry 1: unknown function
=== unknown old function gone
function nope -> none;
---
map m entry 1: unknown function
=== unknown new function
function add -> nope;
---
map m entry 1: unknown function
=== new function on the left
function idle -> idle;
---
map m entry 1: unknown function
=== main kept
function main -> main;
---
same
=== main elsewhere
function main -> tick;
---
map m entry 1: start differs
=== main gone
function main -> none;
---
map m entry 1: start differs
=== another to main
function tick -> main;
---
map m entry 1: start differs
=== start to another start
function work -> idle;
---
same
=== start to no start
function work -> add;
---
map m entry 1: start differs
=== start to none
function work -> none;
---
same
=== no start to a start
function add -> idle;
---
same
=== old function twice
function add -> none; function add -> none;
---
map m entry 2: twice
=== new function twice
function add -> sub; function sub -> sub;
---
map m entry 2: twice
=== first unsound entry
function add -> add; function main -> tick; function nope -> add;
---
map m entry 2: start differs
=== least cause of two
function main -> nope;
---
map m entry 1: unknown function
=== struct renamed
struct bag -> box;
---
same
=== struct gone
struct item -> none;
---
same
=== unknown old struct
struct nope -> box;
---
map m entry 1: unknown struct
=== unknown new struct
struct bag -> nope;
---
map m entry 1: unknown struct
=== old struct twice
struct bag -> box; struct bag -> none;
---
map m entry 2: twice
=== new struct twice
struct item -> box; struct bag -> box;
---
map m entry 2: twice
=== global renamed
global k -> total;
---
same
=== global gone
global n -> none;
---
same
=== array to no array
global a -> total;
---
same
=== unknown old global
global total -> n;
---
map m entry 1: unknown global
=== unknown new global
global k -> nope;
---
map m entry 1: unknown global
=== mutex as a global
global m -> n;
---
map m entry 1: unknown global
=== new global twice
global n -> total; global k -> total;
---
map m entry 2: twice
=== globals in old order
global k -> n; global n -> total;
---
global n -> total;
global k -> n;
=== mutex renamed
mutex l -> q;
---
same
=== mutex gone
mutex l -> none;
---
same
=== unknown old mutex
mutex n -> q;
---
map m entry 1: unknown global
=== unknown new mutex
mutex l -> l;
---
map m entry 1: unknown global
=== old mutex twice
mutex l -> none; mutex l -> q;
---
map m entry 2: twice
=== one name of two kinds
struct bag -> none; mutex l -> none; global k -> none; function add -> none;
---
function add -> none;
struct bag -> none;
global k -> none;
mutex l -> none;
";
