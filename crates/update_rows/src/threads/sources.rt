//! Programs of several threads.

/// The started thread waits for the mutex that the main thread holds.
pub const BLOCKED: &str = r#"
int n;
pthread_mutex_t m;
void *w(void *a) {
    pthread_mutex_lock(&m); printf("w\n"); pthread_mutex_unlock(&m);
    return NULL;
}
int main(void) {
    pthread_t t;
    pthread_mutex_lock(&m);
    pthread_create(&t, NULL, w, NULL);
    while (n < 3) { n = n + 1; }
    pthread_mutex_unlock(&m);
    pthread_join(t, NULL);
    printf("old %d\n", n);
    return 0;
}
"#;

pub const BLOCKED_NEW: &str = r#"
int n;
pthread_mutex_t m;
void *w(void *a) {
    pthread_mutex_lock(&m); printf("w\n"); pthread_mutex_unlock(&m);
    return NULL;
}
int main(void) {
    pthread_t t;
    pthread_mutex_lock(&m);
    pthread_create(&t, NULL, w, NULL);
    while (n < 3) { n = n + 1; }
    pthread_mutex_unlock(&m);
    pthread_join(t, NULL);
    printf("new %d\n", n);
    return 0;
}
"#;

/// The mutex and the start have other names, and there is one more mutex.
pub const RENAMED: &str = r#"
int n;
pthread_mutex_t m;
pthread_mutex_t q;
void *work(void *a) {
    pthread_mutex_lock(&q); printf("w\n"); pthread_mutex_unlock(&q);
    return NULL;
}
int main(void) {
    pthread_t t;
    pthread_mutex_lock(&q);
    pthread_create(&t, NULL, work, NULL);
    while (n < 3) { n = n + 1; }
    pthread_mutex_lock(&m);
    pthread_mutex_unlock(&q);
    pthread_join(t, NULL);
    printf("new %d\n", n);
    return 0;
}
"#;

/// Two threads count, and the main thread waits for them.
pub const COUNTING: &str = r#"
int n;
void *w(void *a) { while (1) { n = n + 1; } return NULL; }
int main(void) {
    pthread_t t;
    pthread_t u;
    pthread_create(&t, NULL, w, NULL);
    pthread_create(&u, NULL, w, NULL);
    pthread_join(t, NULL);
    pthread_join(u, NULL);
    printf("%d\n", n);
    return 0;
}
"#;

pub const COUNTING_TO_6: &str = r#"
int n;
void *w(void *a) { while (n < 6) { n = n + 1; } return NULL; }
int main(void) {
    pthread_t t;
    pthread_t u;
    pthread_create(&t, NULL, w, NULL);
    pthread_create(&u, NULL, w, NULL);
    pthread_join(t, NULL);
    pthread_join(u, NULL);
    printf("%d\n", n);
    return 0;
}
"#;

/// A thread that has ended, and keeps a mutex.
pub const ENDED: &str = r#"
int n;
pthread_mutex_t m;
void *w(void *a) { pthread_mutex_lock(&m); n = 1; return NULL; }
int main(void) {
    pthread_t t;
    pthread_create(&t, NULL, w, NULL);
    while (n < 2) { n = n + n; }
    pthread_join(t, NULL);
    printf("old %d\n", n);
    return 0;
}
"#;

/// Joins the ended thread, starts another one, and takes the mutex.
pub const ENDED_NEW: &str = r#"
int n;
pthread_mutex_t m;
void *other(void *a) { printf("other\n"); return NULL; }
int main(void) {
    pthread_t t;
    pthread_t u;
    while (n < 2) { n = n + 1; }
    pthread_join(t, NULL);
    pthread_create(&u, NULL, other, NULL);
    pthread_join(u, NULL);
    printf("new %d\n", n);
    pthread_mutex_lock(&m);
    return 0;
}
"#;

/// A mutex that the new program has no more.
pub const HOLDING: &str = r#"
int n;
pthread_mutex_t m;
int main(void) {
    pthread_mutex_lock(&m);
    while (n < 2) { n = n + 1; }
    pthread_mutex_unlock(&m);
    printf("old %d\n", n);
    return 0;
}
"#;

pub const WITHOUT: &str = r#"
int n;
int main(void) { while (n < 2) { n = n + 1; } printf("new %d\n", n); return 0; }
"#;

pub const LOOP: &str = "point main loop 1 -> loop 1;";

pub const BOTH_COUNT: &str = "point w loop 1 -> loop 1;";

pub const OTHERS: &str = r"
mutex m -> q;
function w -> work;
point main loop 1 -> loop 1;
";

pub const FROM_ENTRY_OR_LOOP: &str = r"
point main entry -> entry;
point main loop 1 -> loop 1;
";
