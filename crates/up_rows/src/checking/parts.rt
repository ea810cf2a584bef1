//! Elements and fields of what has none, and names that are no values.

/// What `check` answers to each source.
pub const ROWS: &str = r"
=== type index
int a[2]; int main(void) { return a[NULL]; return 0; }
---
36: bad type
=== type index of scalar
int g; int main(void) { return g[0]; return 0; }
---
31: bad type
=== type index of local
int main(void) { int i; return i[0]; return 0; }
---
31: bad type
=== type index of local that hides
int a[2]; int main(void) { int a; return a[0]; return 0; }
---
41: bad type
=== type index of function
int f(void) { return 0; } int main(void) { return f[0]; return 0; }
---
50: bad type
=== type index of define
#define D 1
int main(void) { return D[0]; }
---
36: bad type
=== type index first
int a[2]; int b[2]; int main(void) { return a[NULL] + b[NULL]; return 0; }
---
46: bad type
=== type array as value
int a[2]; int main(void) { return a; return 0; }
---
34: bad type
=== type array as lvalue
int a[2]; int main(void) { a = 1; return 0; }
---
27: bad type
=== type function as value
int f(void) { return 0; } int main(void) { return f; return 0; }
---
50: bad type
=== type function as lvalue
int f(void) { return 0; } int main(void) { f = 1; return 0; }
---
43: bad type
=== type mutex as value
pthread_mutex_t m; int main(void) { return m; return 0; }
---
43: bad type
=== type mutex as lvalue
pthread_mutex_t m; int main(void) { m = 1; return 0; }
---
36: bad type
=== type no such field
struct s { int x; struct s *n; };
struct t { int x; };
int main(void) { struct s *p; return p->y; return 0; }
---
92: bad type
=== type field of other struct
struct s { int x; struct s *n; };
struct t { int x; };
int main(void) { struct t *q; return q->n == NULL; return 0; }
---
92: bad type
=== type field of int
int main(void) { int i; return i->x; return 0; }
---
31: bad type
=== type field of literal
int main(void) { return 5->x; return 0; }
---
24: bad type
=== type field of void pointer
struct s { int x; struct s *n; };
struct t { int x; };
int main(void) { void *v; return v->x; return 0; }
---
88: bad type
=== type field of null
struct s { int x; struct s *n; };
struct t { int x; };
int main(void) { return NULL->x; return 0; }
---
79: bad type
=== type second arrow
struct s { int x; struct s *n; };
struct t { int x; };
int main(void) { struct s *p; return p->x->x; return 0; }
---
92: bad type
=== type field as lvalue
struct s { int x; struct s *n; };
struct t { int x; };
int main(void) { struct s *p; p->y = 1; return 0; }
---
85: bad type
=== type field gets other struct
struct s { int x; struct s *n; };
struct t { int x; };
int main(void) { struct s *p; struct t *q; p->n = q; return 0; }
---
105: bad type
";
