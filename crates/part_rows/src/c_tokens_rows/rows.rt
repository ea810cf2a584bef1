//! Texts and sources, each with its tokens.
//!
//! A token is told by a letter with its number or the length of its text, its offset and its
//! length: `w` is a word, `n` a number, `c` a character, `s` a string, `p` an operator by its
//! place.

/// Texts, and their tokens or the fault.
#[rattlefmt::skip]
pub const TEXTS: &[(&str, &str)] = &[
    ("", ""),
    (" \t\r\n", ""),
    ("a+++b", "w1@0+1 p31@1+2 p0@3+1 w1@4+1 "),
    ("<<=<<<=<", "p29@0+3 p5@3+2 p8@5+2 p7@7+1 "),
    (">>=>>>=>", "p30@0+3 p6@3+2 p10@5+2 p9@7+1 "),
    ("->-->-", "p33@0+2 p32@2+2 p9@4+1 p1@5+1 "),
    ("char _x9 9", "w4@0+4 w3@5+3 n9@9+1 "),
    ("a234567890b234567890c234567890d234567890e234567890f234567890g234", "w64@0+64 "),
    ("a234567890b234567890c234567890d234567890e234567890f234567890g2345", "0: bad token"),
    ("0 00 017 0x0 0XfF", "n0@0+1 n0@2+2 n15@5+3 n0@9+3 n255@13+4 "),
    ("2147483647", "n2147483647@0+10 "),
    ("0x7fffffff 017777777777", "n2147483647@0+10 n2147483647@11+12 "),
    ("2147483648", "0: literal"),
    ("99999999999999999999999999", "0: literal"),
    (" 020000000000", "1: literal"),
    ("0x80000000", "0: literal"),
    ("0x", "0: bad token"),
    ("0xg", "0: bad token"),
    ("08", "0: bad token"),
    ("1a", "0: bad token"),
    ("99999999999999999999_", "0: bad token"),
    (r#"'a' ' ' '~' '"'"#, "c97@0+3 c32@4+3 c126@8+3 c34@12+3 "),
    (r#"'\n''\t''\\''\"''\''"#, "c10@0+4 c9@4+4 c92@8+4 c34@12+4 c39@16+4 "),
    (r"'\0'", "0: bad token"),
    ("''", "0: bad token"),
    ("'ab'", "0: bad token"),
    ("'a", "0: unclosed"),
    ("'a\n'", "0: unclosed"),
    (r"'\'", "0: unclosed"),
    (r#""" "it's""#, "s0@0+2 s4@3+6 "),
    (r#""a\n\t\\\"\'""#, "s6@0+13 "),
    ("\"a\tb\"", "0: bad token"),
    (r#""a\rb""#, "0: bad token"),
    ("\"a\u{7f}\"", "0: bad token"),
    (r#"x "a"#, "2: unclosed"),
    ("x \"a\t\n\"", "2: unclosed"),
    ("\"a\\\n\"", "0: unclosed"),
    ("x // y \"\nz", "w1@0+1 w1@9+1 "),
    ("/**/x/* * / */y", "w1@4+1 w1@14+1 "),
    ("x /* y", "2: unclosed"),
    ("/*/", "0: unclosed"),
    ("x#", "1: bad byte"),
    (r#"x @ ""#, "2: bad byte"),
    (r"\", "0: bad byte"),
    ("\u{b}", "0: bad byte"),
    ("\u{e9}", "0: bad byte"),
];

/// Sources, and their lexemes with the fault behind them.
#[rattlefmt::skip]
pub const SOURCES: &[(&str, &str)] = &[
    ("#include <stdio.h>\nx", "include@0+18 w1@19+1 "),
    (" # include<stdlib.h>// x\n", "include@1+19 "),
    ("#include <pthread.h> /* \n */ \n#define N 7", "include@0+20 define 38 false 7 @30+11 "),
    ("#define N -\t7\r\n", "define 8 true 7 @0+13 "),
    ("#define N 7 /* \n */ x", "define 8 false 7 @0+11 20: unexpected"),
    ("#include <stdio.h> x", "include@0+18 19: unexpected"),
    ("#include <stdio.h> char", "include@0+18 19: left out char"),
    ("#include <stdio.h> #", "include@0+18 19: bad byte"),
    ("#include <math.h>", "begun@0+9 9: left out include"),
    (r#"#include "x.h""#, "begun@0+9 9: left out include"),
    ("#include /**/ <stdio.h>", "begun@0+9 9: left out include"),
    ("#include char", "begun@0+9 9: left out include"),
    ("#include", "begun@0+8 8: left out include"),
    ("#include \n<stdio.h>", "begun@0+9 9: left out include"),
    ("#include @", "begun@0+9 9: bad byte"),
    (r#"#include "x"#, "begun@0+9 9: unclosed"),
    ("#include 09", "begun@0+9 9: bad token"),
    ("#include 2147483648", "begun@0+9 9: literal"),
    ("#define", "begun@0+7 7: unexpected"),
    ("#define int 1", "begun@0+8 8: unexpected"),
    ("#define char 1", "begun@0+8 8: left out char"),
    ("#define N", "begun@0+9 9: unexpected"),
    ("#define N(x) 1", "begun@0+9 9: unexpected"),
    ("#define N 'a'", "begun@0+10 10: unexpected"),
    ("#define N - /**/ 1", "begun@0+12 12: unexpected"),
    ("#define N -\n1", "begun@0+11 11: unexpected"),
    ("#define N --1", "begun@0+10 10: unexpected"),
    ("#define N 1 2", "define 8 false 1 @0+11 12: unexpected"),
    ("#defined N 1", "0: left out directive"),
    ("x\n #", "w1@0+1 3: left out directive"),
    ("# 5", "0: left out directive"),
    ("#/**/define N 1", "0: left out directive"),
    ("x #define N 1", "w1@0+1 2: bad byte"),
    ("/**/ #define N 1", "5: bad byte"),
    ("/*\n*/#define N 1", "5: bad byte"),
    ("/*\n#*/x // #\n#if", "w1@6+1 13: left out directive"),
    ("x auto", "w1@0+1 2: left out auto"),
    ("int inlined", "w3@0+3 w7@4+7 "),
    ("\"\n", "0: unclosed"),
];

/// All operators in their order.
#[rattlefmt::skip]
pub const OPERATORS: (&str, &str) = (
    "+ - * / % << >> < <= > >= == != & ^ | && || ! ~ = += -= *= /= %= &= ^= |= <<= >>= ++ \
     -- -> ( ) [ ] { } , ; . ? :",
    "p0@0+1 p1@2+1 p2@4+1 p3@6+1 p4@8+1 p5@10+2 p6@13+2 p7@16+1 p8@18+2 p9@21+1 p10@23+2 \
     p11@26+2 p12@29+2 p13@32+1 p14@34+1 p15@36+1 p16@38+2 p17@41+2 p18@44+1 p19@46+1 \
     p20@48+1 p21@50+2 p22@53+2 p23@56+2 p24@59+2 p25@62+2 p26@65+2 p27@68+2 p28@71+2 \
     p29@74+3 p30@78+3 p31@82+2 p32@85+2 p33@88+2 p34@91+1 p35@93+1 p36@95+1 p37@97+1 \
     p38@99+1 p39@101+1 p40@103+1 p41@105+1 p42@107+1 p43@109+1 p44@111+1 ",
);
