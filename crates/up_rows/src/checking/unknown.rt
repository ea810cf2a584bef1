//! Names that nothing declares.

/// What `check` answers to each source.
pub const ROWS: &str = r#"
=== unknown value
int main(void) { return x; return 0; }
---
24: unknown x
=== unknown lvalue
int main(void) { x = 1; return 0; }
---
17: unknown x
=== unknown array
int main(void) { return a[0]; return 0; }
---
24: unknown a
=== unknown call
int main(void) { f(); return 0; }
---
17: unknown f
=== unknown prototype alone
int f(void); int main(void) { return f(); }
---
4: unknown f
=== unknown prototype never called
int main(void) { return 0; } int f(void);
---
33: unknown f
=== unknown call before prototype
int main(void) { return f(); } int f(void);
---
24: unknown f
=== unknown call of global
int g; int main(void) { g(); return 0; }
---
24: unknown g
=== unknown call of mutex
pthread_mutex_t m; int main(void) { m(); return 0; }
---
36: unknown m
=== unknown call of define
#define D 1
int main(void) { return D(); }
---
36: unknown D
=== unknown call of hidden
int f(void) { return 0; } int main(void) { int f = 1; return f(); }
---
61: unknown f
=== unknown call of parameter
int f(int f) { return f(1); } int main(void) { return 0; }
---
22: unknown f
=== unknown in declared order of arguments
int f(int a) { return a; } int main(void) { return f(x); }
---
53: unknown x
=== unknown argument of unknown call
int main(void) { f(x); return 0; }
---
17: unknown f
=== unknown start
int main(void) { pthread_t t; pthread_create(&t, NULL, w, NULL); return 0; }
---
55: unknown w
=== unknown start of prototype
int main(void) { pthread_t t; pthread_create(&t, NULL, w, NULL); return 0; }
void *w(void *a);
---
55: unknown w
=== unknown start of global
void *g;
int main(void) { pthread_t t; pthread_create(&t, NULL, g, NULL); return 0; }
---
64: unknown g
=== unknown thread lvalue
void *w(void *a) { return a; }
int main(void) { pthread_create(&t, NULL, w, NULL); return 0; }
---
64: unknown t
=== unknown mutex
int main(void) { pthread_mutex_lock(&m); return 0; }
---
37: unknown m
=== unknown mutex unlocked
int main(void) { pthread_mutex_unlock(&m); return 0; }
---
39: unknown m
=== unknown struct of local
int main(void) { struct s *p; return 0; }
---
27: unknown s
=== unknown struct of second local
int main(void) { int a; struct s *p, *q; return 0; }
---
34: unknown s
=== unknown struct of parameter
int f(int a, struct s *p) { return a; } int main(void) { return 0; }
---
23: unknown s
=== unknown struct of field
struct t { int a; struct s *p; }; int main(void) { return 0; }
---
28: unknown s
=== unknown struct of global
struct s *p; int main(void) { return 0; }
---
10: unknown s
=== unknown struct of result
struct s *f(void) { return NULL; } int main(void) { return 0; }
---
10: unknown s
=== unknown struct before its function
struct s *f(void); int main(void) { return 0; }
---
10: unknown s
=== unknown struct of cast
int main(void) { void *v; v = (struct s *)v; return 0; }
---
30: unknown s
=== unknown struct of inner cast
int main(void) { void *v; v = (void *)(struct s *)v; return 0; }
---
38: unknown s
=== unknown struct of malloc
int main(void) { void *v; v = malloc(sizeof(struct s)); return 0; }
---
51: unknown s
=== unknown struct named as a global
int s; struct s *p; int main(void) { return 0; }
---
17: unknown s
=== unknown count
int a[N]; int main(void) { return 0; }
---
6: unknown N
=== unknown initialiser
int a = N; int main(void) { return 0; }
---
8: unknown N
=== unknown after the block
int main(void) { { int x; } return x; return 0; }
---
35: unknown x
=== unknown after the for
int main(void) { for (int i = 0; i < 1; i++) { } return i; return 0; }
---
56: unknown i
=== unknown before its declaration
int main(void) { x = 1; int x; return 0; }
---
17: unknown x
=== unknown in branch
int main(void) { if (1) { int x; } else { return x; } return 0; }
---
49: unknown x
=== unknown local of another function
int f(int a) { int b; return a; } int main(void) { return b; }
---
58: unknown b
=== unknown once not bad type
int main(void) { return 1 + x; return 0; }
---
28: unknown x
=== unknown in test
int main(void) { while (x) { } return 0; }
---
24: unknown x
=== unknown index
int a[2]; int main(void) { return a[i]; return 0; }
---
36: unknown i
=== unknown in print
int main(void) { printf("%d", x); return 0; }
---
30: unknown x
=== unknown owner
int main(void) { return p->x; return 0; }
---
24: unknown p
=== unknown freed
int main(void) { free(p); return 0; }
---
22: unknown p
=== unknown joined
int main(void) { pthread_join(t, NULL); return 0; }
---
30: unknown t
"#;
