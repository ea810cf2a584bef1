//! Programs with globals.

/// The old program: it sets its globals, and stands in the loop of `main`.
pub const OLD: &str = r#"
struct item { int value; };
struct pair { int left; int right; };
struct lone { int value; };
int n;
int first = 7;
int second = 8;
int a[4];
int b[2];
int kind = 3;
struct item *head;
struct pair *top;
struct lone *gone;
void set(void) {
    a[0] = 10; a[1] = 11; a[2] = 12; a[3] = 13; b[0] = 20; b[1] = 21;
    head = malloc(sizeof(struct item)); head->value = 5;
    top = malloc(sizeof(struct pair)); top->right = 6;
    gone = malloc(sizeof(struct lone)); free(gone);
}
void tell(void) { printf("old\n"); }
int main(void) { set(); while (n < 2) { n = n + 1; } tell(); return 0; }
"#;

/// `main` is as it was, and `tell` prints what the globals are.
pub const SCALARS: &str = r#"
struct item { int value; };
struct pair { int left; int right; };
int n;
int second = 1;
int first = 2;
int third = 4;
int fourth;
void set(void) { }
void tell(void) { printf("%d %d %d %d\n", first, second, third, fourth); }
int main(void) { set(); while (n < 2) { n = n + 1; } tell(); return 0; }
"#;

/// Arrays of other lengths, and one for a scalar and the other way round.
pub const ARRAYS: &str = r#"
struct item { int value; };
struct pair { int left; int right; };
int n;
int b[4];
int a[2];
int c[3];
int kind[2];
int first;
void set(void) { }
void tell(void) {
    printf("%d %d,", a[0], a[1]);
    for (int i = 0; i < 4; i++) { printf(" %d", b[i]); }
    printf(", %d %d, %d %d\n", c[0], c[2], kind[0], kind[1]);
}
int main(void) { set(); while (n < 2) { n = n + 1; } tell(); return 0; }
"#;

/// Pointers: to the same struct, to a renamed one, to another one, and to one where an `int` was.
pub const POINTERS: &str = r#"
struct item { int value; };
struct couple { int left; int right; };
int n;
struct item *kind;
struct couple *top;
struct item *head;
struct item *gone;
struct item *second;
void *any;
void set(void) { }
void tell(void) {
    printf("%d %d %d", head == NULL, top == NULL, gone == NULL);
    printf(" %d %d %d\n", kind == NULL, second == NULL, any == NULL);
}
int main(void) { set(); while (n < 2) { n = n + 1; } tell(); return 0; }
"#;
