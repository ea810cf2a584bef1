//! Names that are declared twice, and which of two faults comes first.

/// What `check` answers to each source.
pub const ROWS: &str = r"
=== twice global
int g; int g; int main(void) { return 0; }
---
11: twice g
=== twice struct
struct s { int a; }; struct s { int b; }; int main(void) { return 0; }
---
28: twice s
=== twice field
struct s { int a; void *a; }; int main(void) { return 0; }
---
24: twice a
=== twice define
#define D 1
#define D 1
int main(void) { return 0; }
---
20: twice D
=== twice mutex
pthread_mutex_t m; pthread_mutex_t m; int main(void) { return 0; }
---
35: twice m
=== twice define and global
#define D 1
int D;
int main(void) { return 0; }
---
16: twice D
=== twice global and mutex
pthread_mutex_t x; int x; int main(void) { return 0; }
---
23: twice x
=== twice global and function
int f; int f(void) { return 0; } int main(void) { return 0; }
---
11: twice f
=== twice function and mutex
int f(void) { return 0; } pthread_mutex_t f; int main(void) { return 0; }
---
42: twice f
=== twice definition
int f(void) { return 0; } int f(void) { return 0; } int main(void) { return 0; }
---
30: twice f
=== twice definition after prototype
int f(void);
int f(void) { return 0; }
int f(void) { return 1; }
int main(void) { return 0; }
---
43: twice f
=== twice other result
int f(void); void f(void) { } int main(void) { return 0; }
---
18: twice f
=== twice other parameter
int f(int a); int f(void *a) { return 0; } int main(void) { return 0; }
---
18: twice f
=== twice other number of parameters
int f(int a) { return a; } int f(int a, int b); int main(void) { return 0; }
---
31: twice f
=== twice other struct
struct s { int x; };
struct t { int x; };
int f(struct s *p);
int f(struct t *p) { return 0; }
int main(void) { return 0; }
---
66: twice f
=== twice third against first
int f(int a) { return a; } int f(int b); int f(void); int main(void) { return 0; }
---
45: twice f
=== twice main
int main(void) { return 0; } int main(void) { return 1; }
---
33: twice main
=== twice local
int main(void) { int a; int a; return 0; }
---
28: twice a
=== twice local in one declaration
int main(void) { int a, a; return 0; }
---
24: twice a
=== twice after a block
int main(void) { int a; { int a; } int a; return 0; }
---
39: twice a
=== twice parameter
int f(int a, int a) { return a; } int main(void) { return 0; }
---
17: twice a
=== twice parameter of prototype
int f(int a, int a); int f(int a, int b) { return a; } int main(void) { return 0; }
---
17: twice a
=== twice parameter and local
int f(int a) { int a; return 0; } int main(void) { return 0; }
---
19: twice a
=== twice in inner block
int main(void) { { int a; void *a; } return 0; }
---
32: twice a
=== twice in for
int main(void) { for (int i = 0, i = 1; i < 1; i++) { } return 0; }
---
33: twice i
=== first of two
int main(void) { int i; i = x; i = y; return 0; }
---
28: unknown x
=== first is before in the text not in kind
int main(void) { return x; } struct s { int a; int a; };
---
24: unknown x
=== first before no main
int f(void) { return x; }
---
21: unknown x
=== first unknown before twice
int f; int f(void); int main(void) { return 0; }
---
11: unknown f
=== first twice before bad main
int main; void main(void) { }
---
15: twice main
=== first struct before function
struct s *f(void); int main(void) { return 0; }
---
10: unknown s
=== first unknown before bad call
int main(void) { return f(1); } int f(void);
---
24: unknown f
=== first operator before later operand
struct s { int x; }; int main(void) { struct s *p; return p + (1 + x); }
---
60: bad type
=== first unknown start before form
int main(void) { pthread_t t; pthread_create(&t, NULL, w, NULL); return 0; }
int w(void);
---
55: unknown w
";
