//! Operators and tests whose operands have types that do not fit.

/// What `check` answers to each source.
pub const ROWS: &str = r"
=== type sum of pointer
struct s { int x; struct s *n; };
struct t { int x; };
int main(void) { struct s *p; return p + 1; return 0; }
---
94: bad type
=== type sum of pointer right
struct s { int x; struct s *n; };
struct t { int x; };
int main(void) { struct s *p; return 1 + p; return 0; }
---
94: bad type
=== type difference of pointers
struct s { int x; struct s *n; };
struct t { int x; };
int main(void) { struct s *p; return p - p; return 0; }
---
94: bad type
=== type order of pointers
struct s { int x; struct s *n; };
struct t { int x; };
int main(void) { struct s *p; return p < p; return 0; }
---
94: bad type
=== type bits of null
int main(void) { return 1 & NULL; return 0; }
---
26: bad type
=== type shift of thread
int main(void) { pthread_t t; return t << 1; return 0; }
---
39: bad type
=== type equal threads
int main(void) { pthread_t t; return t == t; return 0; }
---
39: bad type
=== type equal thread and int
int main(void) { pthread_t t; return t != 0; return 0; }
---
39: bad type
=== type equal structs
struct s { int x; struct s *n; };
struct t { int x; };
int main(void) { struct s *p; struct t *q; return p == q; return 0; }
---
107: bad type
=== type equal pointer and int
struct s { int x; struct s *n; };
struct t { int x; };
int main(void) { struct s *p; return p == 1; return 0; }
---
94: bad type
=== type equal pointer and minus zero
#define Z -0
struct s { int x; struct s *n; };
struct t { int x; };
int main(void) { struct s *p; return p == Z; }
---
107: bad type
=== type equal pointer and sum
struct s { int x; struct s *n; };
struct t { int x; };
int main(void) { struct s *p; return p == 0 + 0; return 0; }
---
94: bad type
=== type equal null and int
int main(void) { int i; return i == NULL; return 0; }
---
33: bad type
=== type and of thread
int main(void) { pthread_t t; return 1 && t; return 0; }
---
39: bad type
=== type or of thread
int main(void) { pthread_t t; return t || 1; return 0; }
---
39: bad type
=== type not of thread
int main(void) { pthread_t t; return !t; return 0; }
---
38: bad type
=== type minus of pointer
int main(void) { return -NULL; return 0; }
---
25: bad type
=== type flip of pointer
struct s { int x; struct s *n; };
struct t { int x; };
int main(void) { struct s *p; return ~p; return 0; }
---
93: bad type
=== type operator not operand
struct s { int x; struct s *n; };
struct t { int x; };
int main(void) { struct s *p; return (p + 1) + (1 + p); return 0; }
---
95: bad type
=== type pointer and unknown
struct s { int x; struct s *n; };
struct t { int x; };
int main(void) { struct s *p; return p + nope; return 0; }
---
94: bad type
=== type outer operator
struct s { int x; struct s *n; };
struct t { int x; };
int main(void) { int i; struct s *p; return i * 2 + p; return 0; }
---
105: bad type
=== type test of if
int main(void) { pthread_t t; if (t) { } return 0; }
---
34: bad type
=== type test of while
int main(void) { pthread_t t; while (t) { } return 0; }
---
37: bad type
=== type test of for
int main(void) { pthread_t t; for (; t; ) { } return 0; }
---
37: bad type
=== type test is the operator
int main(void) { pthread_t t; if (t == t) { } return 0; }
---
36: bad type
";
