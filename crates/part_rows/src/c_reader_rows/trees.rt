//! The trees that sources are read as.

/// The body of a function.
#[rattlefmt::skip]
pub const BODIES: &[(&str, &str)] = &[
    ("void f(void){x=a||b&&c|d^e&f==g<h<<i+j*k;}",
     "=@13 x@13 ||@16 a@15 &&@19 b@18 |@22 c@21 ^@24 d@23 &@26 e@25 ==@28 f@27 <@31 g@30 \
     <<@33 h@32 +@36 i@35 *@38 j@37 k@39 "),
    ("void f(void){x=k/j-i>>h>=g!=f&e^d|c&&b||a;}",
     "=@13 x@13 ||@38 &&@35 |@33 ^@31 &@29 !=@26 >=@23 >>@20 -@18 /@16 k@15 j@17 i@19 h@22 \
     g@25 f@28 e@30 d@32 c@34 b@37 a@40 "),
    ("void f(void){x=a%b*c/d;}", "=@13 x@13 /@20 *@18 %@16 a@15 b@17 c@19 d@21 "),
    ("void f(void){(p+1)->x=a-(b*2)-c;}",
     "=@13 ->x@13 +@15 p@14 1@16 -@29 -@23 a@22 *@26 b@25 2@27 c@30 "),
    ("void f(void){if(a)if(b);else;++x;}", "if@13 a@16 if else@18 b@21 ;@23 ;@28 +=@29 x@31 1@29 "),
    ("void f(void){struct s*p=(struct s*)q->n,*r;}",
     "struct s *p=@22 cast struct s *@24 ->n@35 q@35 struct s *r@41 "),
    ("void f(void){for(int i=0,j;i<2;i--){}}",
     "for 2 test step@13 int i=@21 0@23 int j@25 <@28 i@27 2@29 -=@31 i@31 1@32 block 0@35 "),
    (r#"void f(void){while(g(a,1))printf("x",getchar());}"#,
     r#"while@13 g.2@19 a@21 1@23 print "x" 1@26 getchar@37 "#),
    ("void f(void){pthread_create(&p->t,NULL,w,(void*)EOF);}",
     "run@13 create w@39 @13 ->t@29 p@29 cast void *@41 EOF@48 "),
];

/// A whole source.
#[rattlefmt::skip]
pub const PROGRAM: (&str, &str) = (
    "static int a=-1;int b[N];void*p=NULL;struct s{int x;};pthread_mutex_t m;int f(int \
     c){return c;}",
    "struct s@44 int x@50 ; int a@11 -1@13 ; int b@20 [N]@22 ; void *p@30 NULL@32 ; mutex \
     m@70 ; int f@76 int c@82 return value@85 c@92 ; 95",
);
