//! Calls, prints, locks, starts, returns and loops.

/// What `check` answers to each source.
pub const ROWS: &str = r#"
=== call too few
void f(int a) { } int main(void) { f(); return 0; }
---
35: bad call
=== call too many
void f(int a) { } int main(void) { f(1, 2); return 0; }
---
35: bad call
=== call arguments for none
int f(void) { return 0; } int main(void) { return f(1); return 0; }
---
50: bad call
=== call before its arguments
void f(int a) { } int main(void) { f(NULL, x); return 0; }
---
35: bad call
=== call of main
int main(void) { return main(); }
---
24: bad call
=== call of main as statement
void f(void) { main(); } int main(void) { f(); return 0; }
---
15: bad call
=== call void as value
void v(void) { } int main(void) { return v(); return 0; }
---
41: bad call
=== call void in sum
void v(void) { } int main(void) { return 1 + v(); return 0; }
---
45: bad call
=== call void as initialiser
void v(void) { } int main(void) { int i = v(); return 0; }
---
42: bad call
=== call void as argument
void v(void) { } void f(int a) { } int main(void) { f(v()); return 0; }
---
54: bad call
=== call void as test
void v(void) { } int main(void) { if (v()) { } return 0; }
---
38: bad call
=== call void negated
void v(void) { } int main(void) { return !v(); return 0; }
---
42: bad call
=== call void printed
void v(void) { } int main(void) { printf("%d", v()); return 0; }
---
47: bad call
=== call void freed
void v(void) { } int main(void) { free(v()); return 0; }
---
39: bad call
=== call void index
void v(void) { } int a[2]; int main(void) { return a[v()]; return 0; }
---
53: bad call
=== call void owner
void v(void) { } int main(void) { return (v())->x; return 0; }
---
42: bad call
=== call void cast
void v(void) { } int main(void) { void *p; p = (void *)v(); return 0; }
---
55: bad call
=== call void equal
void v(void) { } int main(void) { return v() == NULL; return 0; }
---
41: bad call
=== call void beside pointer
void v(void) { } int main(void) { return NULL + v(); return 0; }
---
46: bad type
=== print too few
int main(void) { printf("%d"); return 0; }
---
17: bad call
=== print too many
int main(void) { printf("x", 1); return 0; }
---
17: bad call
=== print other directive
int main(void) { printf("%s", 1); return 0; }
---
17: bad call
=== print other directive beside
int main(void) { printf("%d%x", 1); return 0; }
---
17: bad call
=== print width
int main(void) { printf("%2d", 1); return 0; }
---
17: bad call
=== print ends in percent
int main(void) { printf("100%"); return 0; }
---
17: bad call
=== print percents are no directive
int main(void) { printf("%%d", 1); return 0; }
---
17: bad call
=== print call before argument
int main(void) { printf("%d %d", NULL); return 0; }
---
17: bad call
=== lock of global
int g; int main(void) { pthread_mutex_lock(&g); return 0; }
---
24: bad call
=== lock of function
void f(void) { } int main(void) { pthread_mutex_lock(&f); return 0; }
---
34: bad call
=== lock of local that hides
pthread_mutex_t m; int main(void) { int m; pthread_mutex_lock(&m); return 0; }
---
43: bad call
=== unlock of global
int g; int main(void) { int r = pthread_mutex_unlock(&g); return 0; }
---
32: bad call
=== lock of define
#define D 1
int main(void) { pthread_mutex_lock(&D); return 0; }
---
29: bad call
=== loop break
int main(void) { break; return 0; }
---
17: not in loop
=== loop continue
int main(void) { continue; return 0; }
---
17: not in loop
=== loop break after
int main(void) { while (1) { } break; return 0; }
---
31: not in loop
=== loop break in if
int main(void) { if (1) break; return 0; }
---
24: not in loop
=== loop break in else
int main(void) { if (1) { } else { continue; } return 0; }
---
35: not in loop
=== loop break after for
int main(void) { for (;;) break; { break; } return 0; }
---
35: not in loop
=== loop break in called
void f(void) { break; } int main(void) { while (1) f(); return 0; }
---
15: not in loop
=== start of int result
int w(void *a) { return 0; }
int main(void) { pthread_t t; pthread_create(&t, NULL, w, NULL); return 0; }
---
84: bad start
=== start of void result
void w(void *a) { }
int main(void) { pthread_t t; pthread_create(&t, NULL, w, NULL); return 0; }
---
75: bad start
=== start without parameter
void *w(void) { return NULL; }
int main(void) { pthread_t t; pthread_create(&t, NULL, w, NULL); return 0; }
---
86: bad start
=== start with two parameters
void *w(void *a, int b) { return a; }
int main(void) { pthread_t t; pthread_create(&t, NULL, w, NULL); return 0; }
---
93: bad start
=== start with int parameter
void *w(int a) { return NULL; }
int main(void) { pthread_t t; pthread_create(&t, NULL, w, NULL); return 0; }
---
87: bad start
=== start with struct parameter
struct s { int x; struct s *n; };
struct t { int x; };
void *w(struct s *a) { return a; }
int main(void) { pthread_t t; pthread_create(&t, NULL, w, NULL); return 0; }
---
145: bad start
=== start with struct result
struct s { int x; struct s *n; };
struct t { int x; };
struct s *w(void *a) { return a; }
int main(void) { pthread_t t; pthread_create(&t, NULL, w, NULL); return 0; }
---
145: bad start
=== start of main
int main(void) { pthread_t t; pthread_create(&t, NULL, main, NULL); return 0; }
---
55: bad start
=== start before its argument
void *w(void) { return NULL; }
int main(void) { pthread_t t; pthread_create(&t, NULL, w, 1); return 0; }
---
86: bad start
=== return value in void
void f(void) { return 1; } int main(void) { return 0; }
---
15: return value
=== return void call in void
void v(void) { } void f(void) { return v(); } int main(void) { return 0; }
---
32: return value
=== return unknown in void
void f(void) { return x; } int main(void) { return 0; }
---
15: return value
=== return nothing in int
int main(void) { return; }
---
17: return value
=== return nothing in pointer
void *f(void) { return; } int main(void) { return 0; }
---
16: return value
"#;
