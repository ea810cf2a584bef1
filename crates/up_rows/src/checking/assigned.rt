//! Values that are assigned, returned, given to a call or cast, and have types that do not fit.

/// What `check` answers to each source.
pub const ROWS: &str = r#"
=== type assign int to pointer
struct s { int x; struct s *n; };
struct t { int x; };
int main(void) { struct s *p; p = 1; return 0; }
---
89: bad type
=== type assign pointer to int
int main(void) { int i; i = NULL; return 0; }
---
28: bad type
=== type assign other struct
struct s { int x; struct s *n; };
struct t { int x; };
int main(void) { struct s *p; struct t *q; p = q; return 0; }
---
102: bad type
=== type assign malloc of other
struct s { int x; struct s *n; };
struct t { int x; };
int main(void) { struct s *p; p = malloc(sizeof(struct t)); return 0; }
---
89: bad type
=== type assign void pointer to int
int main(void) { void *v; int i; i = v; return 0; }
---
37: bad type
=== type assign int to thread
int main(void) { pthread_t t; t = 0; return 0; }
---
34: bad type
=== type assign thread to int
int main(void) { pthread_t t; int i; i = t; return 0; }
---
41: bad type
=== type assign negative zero
struct s { int x; struct s *n; };
struct t { int x; };
int main(void) { struct s *p; p = -0; return 0; }
---
89: bad type
=== type assign parenthesised
struct s { int x; struct s *n; };
struct t { int x; };
int main(void) { struct s *p; p = (1); return 0; }
---
90: bad type
=== type assign call value
struct s { int x; struct s *n; };
struct t { int x; };
int f(void) { return 0; }
int main(void) { struct s *p; p = f(); return 0; }
---
115: bad type
=== type assign lock value
struct s { int x; struct s *n; };
struct t { int x; };
pthread_mutex_t m;
int main(void) { struct s *p; p = pthread_mutex_lock(&m); return 0; }
---
108: bad type
=== type assign sum
struct s { int x; struct s *n; };
struct t { int x; };
int main(void) { struct s *p; p = 1 + 1; return 0; }
---
91: bad type
=== type initialiser
struct s { int x; struct s *n; };
struct t { int x; };
int main(void) { struct s *p = 1; return 0; }
---
86: bad type
=== type initialiser other struct
struct s { int x; struct s *n; };
struct t { int x; };
int main(void) { struct t *q = NULL; struct s *p = q; return 0; }
---
106: bad type
=== type return pointer
int main(void) { return NULL; }
---
24: bad type
=== type return int
void *f(void) { return 1; } int main(void) { return 0; }
---
23: bad type
=== type return other struct
struct s { int x; struct s *n; };
struct t { int x; };
struct s *f(struct t *q) { return q; }
int main(void) { return 0; }
---
89: bad type
=== type return thread
int f(pthread_t t) { return t; } int main(void) { return 0; }
---
28: bad type
=== type argument
struct s { int x; struct s *n; };
struct t { int x; };
void f(int a, struct s *p) { }
int main(void) { f(1, 1); return 0; }
---
108: bad type
=== type argument other struct
struct s { int x; struct s *n; };
struct t { int x; };
void f(int a, struct s *p) { }
int main(void) { struct t *q; f(1, q); return 0; }
---
121: bad type
=== type argument null for int
struct s { int x; struct s *n; };
struct t { int x; };
void f(int a, struct s *p) { }
int main(void) { f(NULL, 0); return 0; }
---
105: bad type
=== type op assign pointer
struct s { int x; struct s *n; };
struct t { int x; };
int main(void) { struct s *p; p += 1; return 0; }
---
85: bad type
=== type op assign by pointer
struct s { int x; struct s *n; };
struct t { int x; };
int main(void) { int i; struct s *p; i += p; return 0; }
---
97: bad type
=== type increment pointer
struct s { int x; struct s *n; };
struct t { int x; };
int main(void) { struct s *p; p++; return 0; }
---
85: bad type
=== type prefix increment pointer
struct s { int x; struct s *n; };
struct t { int x; };
int main(void) { struct s *p; ++p; return 0; }
---
87: bad type
=== type decrement thread
int main(void) { pthread_t t; --t; return 0; }
---
32: bad type
=== type free int
int main(void) { free(1); return 0; }
---
22: bad type
=== type free thread
int main(void) { pthread_t t; free(t); return 0; }
---
35: bad type
=== type join int
int main(void) { pthread_join(0, NULL); return 0; }
---
30: bad type
=== type join pointer
int main(void) { void *v; pthread_join(v, NULL); return 0; }
---
39: bad type
=== type start lvalue int
void *w(void *a) { return a; }
int main(void) { int t; pthread_create(&t, NULL, w, NULL); return 0; }
---
71: bad type
=== type start lvalue define
#define D 1
void *w(void *a) { return a; }
int main(void) { pthread_create(&D, NULL, w, NULL); return 0; }
---
76: bad type
=== type start argument int
void *w(void *a) { return a; }
int main(void) { pthread_t t; pthread_create(&t, NULL, w, 1); return 0; }
---
89: bad type
=== type start argument thread
void *w(void *a) { return a; }
int main(void) { pthread_t t; pthread_create(&t, NULL, w, t); return 0; }
---
89: bad type
=== type print pointer
int main(void) { printf("%d", NULL); return 0; }
---
30: bad type
=== type print second
int main(void) { pthread_t t; printf("%d %d", 1, t); return 0; }
---
49: bad type
=== type cast of int
struct s { int x; struct s *n; };
struct t { int x; };
int main(void) { struct s *p; p = (struct s *)1; return 0; }
---
101: bad type
=== type cast of zero
struct s { int x; struct s *n; };
struct t { int x; };
int main(void) { struct s *p; p = (struct s *)0; return 0; }
---
101: bad type
=== type cast of thread
int main(void) { pthread_t t; void *v; v = (void *)t; return 0; }
---
51: bad type
=== type cast to other struct
struct s { int x; struct s *n; };
struct t { int x; };
int main(void) { struct s *p; p = (struct t *)NULL; return 0; }
---
89: bad type
=== type cast hides the zero
int main(void) { int i; i = (void *)NULL; return 0; }
---
28: bad type
"#;
