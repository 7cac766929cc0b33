// A class as the encoder sees it: the form of its operands, which says what is put in, and its least word.
#[derive(Clone, Copy)]
pub(crate) struct Stem(pub Form, pub u32);

// A form has the name of one of the table of classes, and serves every form whose operands go into the same fields:
// `RtCop0` for `rt_fs` and `rt_hwr` too, `RtImm` for `rt_uimm`, `RtBase` for `ft_base` and `hint_base`, `RdRt` for
// `fs_ft`.
#[derive(Clone, Copy)]
pub(crate) enum Form {
    NoOperands,
    OneRs,
    OneRd,
    RdRs,
    RdRt,
    RsRt,
    RdRsRt,
    RdRtRs,
    RdRtSa,
    RtCop0,
    FdFs,
    FdFsFt,
    // `jalr`, whose rd is not shown if it is 31.
    Link,
    InstrIndex,
    Offset,
    RsOffset,
    RsRtOffset,
    RtImm,
    RtRsImm,
    RtBase,
    // `ext` shows a size and `ins` another one, from two bits.
    ExtPosSize,
    InsPosSize,
}
