//! `main`, initialisers, counts, defines and the lengths of arrays.

/// What `check` answers to each source.
pub const ROWS: &str = r"
=== no main of nothing
---
0: no main
=== no main
int f(void) { return 0; }
---
25: no main
=== no main after newline
int f(void) { return 0; }

---
26: no main
=== no main global
int main;
---
9: no main
=== no main define
#define main 1

---
15: no main
=== main prototype alone
int main(void);
---
4: unknown main
=== bad main void
void main(void) { }
---
5: bad main
=== bad main pointer
void *main(void) { return NULL; }
---
6: bad main
=== bad main parameter
int main(int a) { return 0; }
---
4: bad main
=== bad main prototype
int main(int a); int main(int a) { return 0; }
---
4: bad main
=== bad main before its struct is unknown
struct s *main(void) { return NULL; }
---
10: unknown s
=== init null for int
int g = NULL; int main(void) { return 0; }
---
8: bad init
=== init number for pointer
void *g = 1; int main(void) { return 0; }
---
10: bad init
=== init minus zero for pointer
void *g = -0; int main(void) { return 0; }
---
10: bad init
=== init eof for pointer
void *g = EOF; int main(void) { return 0; }
---
10: bad init
=== init of thread
pthread_t g = 0; int main(void) { return 0; }
---
14: bad init
=== init by global
int a; int g = a; int main(void) { return 0; }
---
15: bad init
=== init by itself
int g = g; int main(void) { return 0; }
---
8: bad init
=== init by function
int f(void) { return 0; } int g = f; int main(void) { return 0; }
---
34: bad init
=== init pointer by define
#define D 1
void *g = D;
int main(void) { return 0; }
---
22: bad init
=== init pointer by minus zero
#define Z -0
void *g = Z;
int main(void) { return 0; }
---
23: bad init
=== init thread by define
#define Z 0
pthread_t g = Z;
int main(void) { return 0; }
---
26: bad init
=== count by global
int n; int a[n]; int main(void) { return 0; }
---
13: bad init
=== count by mutex
pthread_mutex_t n; int a[n]; int main(void) { return 0; }
---
25: bad init
=== define as lvalue
#define D 1
int main(void) { D = 2; return 0; }
---
29: bad init
=== define counted up
#define D 1
int main(void) { D++; return 0; }
---
29: bad init
=== define counted up before
#define D 1
int main(void) { ++D; return 0; }
---
31: bad init
=== define op assigned
#define D 1
int main(void) { D += NULL; return 0; }
---
29: bad init
=== limit length zero
int a[0]; int main(void) { return 0; }
---
4: limit array 65536
=== limit length above
int a[65537]; int main(void) { return 0; }
---
4: limit array 65536
=== limit length most
int a[2147483647]; int main(void) { return 0; }
---
4: limit array 65536
=== limit length by define
#define N 65537
int a[N];
int main(void) { return 0; }
---
20: limit array 65536
=== limit length by zero
#define N 0
int a[N];
int main(void) { return 0; }
---
16: limit array 65536
=== limit length by negative
#define N -1
int a[N];
int main(void) { return 0; }
---
17: limit array 65536
=== limit length before its define is read
int a[N];
int main(void) { return 0; }
#define N 65537
---
4: limit array 65536
";
