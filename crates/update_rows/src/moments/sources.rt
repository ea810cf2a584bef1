//! Programs whose updates come at stated moments.

use row_calls::Programs;

/// A loop that prints `old`, and one that prints `new`.
pub const C1: &str = r#"
int n; int main(void) { while (n < 4) { n = n + 1; printf("old %d\n", n); } return 0; }
"#;

pub const C2: &str = r#"
int n; int main(void) { while (n < 4) { n = n + 1; printf("new %d\n", n); } return 0; }
"#;

/// The two loops, which are mapped to each other.
pub const LOOPS: Programs<'static> = Programs {
    old: C1,
    new: C2,
    map: "point main loop 1 -> loop 1;\n",
};

/// The main thread holds the mutex that the other one waits for, and waits for its end.
pub const STUCK: &str = r#"
pthread_mutex_t m;
void *w(void *a) {
    pthread_mutex_lock(&m);
    printf("w\n");
    pthread_mutex_unlock(&m);
    return NULL;
}
int main(void) {
    pthread_t t;
    pthread_mutex_lock(&m);
    pthread_create(&t, NULL, w, NULL);
    pthread_join(t, NULL);
    return 0;
}
"#;

/// The main thread lets go of the mutex before it waits.
pub const FREED: &str = r#"
pthread_mutex_t m;
pthread_mutex_t q;
void *w(void *a) {
    pthread_mutex_lock(&m);
    printf("w\n");
    pthread_mutex_unlock(&m);
    return NULL;
}
int main(void) {
    pthread_t t;
    pthread_mutex_lock(&m);
    pthread_create(&t, NULL, w, NULL);
    pthread_mutex_lock(&q);
    pthread_mutex_unlock(&m);
    pthread_join(t, NULL);
    printf("freed\n");
    return 0;
}
"#;

/// The new loop with a global more.
pub const C2_AND_K: &str = r#"
int n;
int k;
int main(void) { while (n < 4) { n = n + 1; printf("new %d\n", n); } return 0; }
"#;

/// The new loop with another status.
pub const C2_EXITS: &str = r#"
int n;
int main(void) { while (n < 4) { n = n + 1; printf("new %d\n", n); } return n * 100; }
"#;

/// A loop that traps in its third round.
pub const TRAPS: &str = r#"
int n;
int main(void) { while (1) { n = n + 1; printf("old %d\n", 6 / (3 - n)); } return 0; }
"#;
