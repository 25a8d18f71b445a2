//! Patterns that are refused, each with the fault that is met first.
use lua_pattern::PatternFault;

/// A pattern, and why it is refused.
pub type Refused = (&'static str, PatternFault);

pub const FAULTS: &[Refused] = &[
    ("%f[%z]", PatternFault::BadItem),
    ("%q", PatternFault::BadItem),
    ("[%q]", PatternFault::BadItem),
    ("[%1", PatternFault::BadItem),
    ("[%b]", PatternFault::BadItem),
    ("%e(", PatternFault::BadItem),
    ("(%q", PatternFault::BadItem),
    ("%0x", PatternFault::BadItem),
    ("%", PatternFault::EndsWithPercent),
    ("a%", PatternFault::EndsWithPercent),
    ("[", PatternFault::OpenSet),
    ("[a", PatternFault::OpenSet),
    ("[^", PatternFault::OpenSet),
    ("[^a", PatternFault::OpenSet),
    ("[]", PatternFault::OpenSet),
    ("[^]", PatternFault::OpenSet),
    ("[%", PatternFault::OpenSet),
    ("[%]", PatternFault::OpenSet),
    ("[a-", PatternFault::OpenSet),
    ("(", PatternFault::BadCapture),
    ("(a", PatternFault::BadCapture),
    ("a)", PatternFault::BadCapture),
    (")", PatternFault::BadCapture),
    ("(()", PatternFault::BadCapture),
];

pub const MORE_FAULTS: &[Refused] = &[
    ("())", PatternFault::BadCapture),
    ("%1", PatternFault::BadCapture),
    ("(%1)", PatternFault::BadCapture),
    ("(a)%2", PatternFault::BadCapture),
    ("(a%1)", PatternFault::BadCapture),
    ("%b", PatternFault::BadItem),
    ("%bx", PatternFault::BadItem),
    ("%f", PatternFault::BadItem),
    ("%fa", PatternFault::BadItem),
    ("%f[", PatternFault::OpenSet),
    ("(a)(b%2)", PatternFault::BadCapture),
    ("a[b%", PatternFault::OpenSet),
    ("([)", PatternFault::OpenSet),
    ("%1[", PatternFault::BadCapture),
    ("[(", PatternFault::OpenSet),
    ("(a)%1(", PatternFault::BadCapture),
    ("%", PatternFault::EndsWithPercent),
    ("[%a", PatternFault::OpenSet),
    ("x*%", PatternFault::EndsWithPercent),
    ("((", PatternFault::BadCapture),
    ("()%2", PatternFault::BadCapture),
    ("%9", PatternFault::BadCapture),
    (
        "()()()()()()()()()()()()()()()()()()()()()()()()()()()()()()()()()",
        PatternFault::BadCapture,
    ),
    ("%b()%", PatternFault::EndsWithPercent),
];
