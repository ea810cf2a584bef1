//! Programs with objects.

/// The first object is in a global's hands, the second in nobody's, and the third is freed.
pub const ITEMS: &str = r#"
struct item { int value; struct item *next; };
struct item *head;
int n;
int main(void) {
    struct item *p;
    p = malloc(sizeof(struct item)); p->value = 5; head = p;
    p = malloc(sizeof(struct item)); p->value = 7;
    p = malloc(sizeof(struct item)); p->value = 9;
    free(p);
    p = NULL;
    while (n < 1) { n = n + 1; }
    printf("%d\n", head->value);
    return 0;
}
"#;

pub const WEIGHED: &str = r#"
struct item { int value; int weight; struct item *next; };
struct item *head;
int n;
int main(void) {
    struct item *p;
    p = malloc(sizeof(struct item)); p->value = 5; head = p;
    p = malloc(sizeof(struct item)); p->value = 7;
    p = malloc(sizeof(struct item)); p->value = 9;
    free(p);
    p = NULL;
    while (n < 1) { n = n + 1; }
    printf("%d\n", head->weight);
    return 0;
}
"#;

/// A list of three with the values 3, 2, 1, an object that was freed, and one of another struct.
pub const LIST: &str = r#"
struct item { int value; int rank; struct item *next; };
struct bag { int size; struct item *first; };
struct item *head;
struct item *gone;
struct bag *bag;
int n;
void push(int value) {
    struct item *p = malloc(sizeof(struct item));
    p->value = value;
    p->rank = value + value;
    p->next = head;
    head = p;
}
void fill(void) {
    push(1); push(2); push(3);
    gone = malloc(sizeof(struct item)); free(gone);
    bag = malloc(sizeof(struct bag)); bag->size = 3; bag->first = head;
}
void tell(void) { printf("old\n"); }
int main(void) { fill(); while (n < 2) { n = n + 1; } tell(); return 0; }
"#;

/// The fields stand in another order, `rank` is a pointer, and there are new ones.
pub const REORDERED: &str = r#"
struct bag { struct item *first; int size; int sum; };
struct item { struct item *next; int weight; struct item *rank; int value; };
struct item *head;
struct item *last;
struct item *gone;
struct bag *bag;
int n;
void fill(void) { }
void tell(void) {
    for (struct item *p = head; p != NULL; p = p->next) {
        printf("%d %d %d,", p->value, p->weight, p->rank != NULL);
    }
    printf(" %d %d %d\n", bag->first->value, bag->size, bag->sum);
    if (last != NULL) { printf("%d\n", last->weight); }
}
int main(void) { fill(); while (n < 2) { n = n + 1; } tell(); return 0; }
"#;

/// The structs have other names.
pub const NODES: &str = r#"
struct node { int value; struct node *next; struct node *self; };
struct box { int size; struct node *first; };
struct node *head;
struct box *bag;
int n;
void fill(void) { }
void tell(void) {
    struct node *p = malloc(sizeof(struct node));
    p->next = bag->first;
    while (p->next != NULL) { p = p->next; printf("%d %d,", p->value, p->self == head); }
    printf(" %d\n", bag->size);
}
int main(void) { fill(); while (n < 2) { n = n + 1; } tell(); return 0; }
"#;

/// Reads what was freed, after it has printed.
pub const READS_FREED: &str = r#"
struct item { int value; int weight; struct item *next; };
struct bag { int size; };
struct item *gone;
int n;
void fill(void) { }
void tell(void) { printf("new\n"); printf("%d\n", gone->weight); }
int main(void) { fill(); while (n < 2) { n = n + 1; } tell(); return 0; }
"#;

pub const FREES_AGAIN: &str = r#"
struct item { int value; int weight; struct item *next; };
struct bag { int size; };
struct item *gone;
int n;
void fill(void) { }
void tell(void) { printf("new\n"); free(gone); }
int main(void) { fill(); while (n < 2) { n = n + 1; } tell(); return 0; }
"#;

/// `item` is the struct that was `bag`, and the other way round.
pub const EXCHANGED: &str = r#"
struct item { int size; struct bag *first; };
struct bag { int value; int rank; struct bag *next; };
struct bag *head;
struct item *bag;
int n;
void fill(void) { }
void tell(void) { printf("%d %d %d\n", head->value, bag->size, bag->first->rank); }
int main(void) { fill(); while (n < 2) { n = n + 1; } tell(); return 0; }
"#;

pub const READS: &str = r#"
int n;
int main(void) {
    n = getchar();
    while (n != EOF) { printf("old %d\n", n); n = getchar(); }
    return 0;
}
"#;

pub const READS_ON: &str = r#"
int n;
int main(void) {
    n = getchar();
    while (n != EOF) { printf("new %d\n", n); n = getchar(); }
    return 0;
}
"#;
