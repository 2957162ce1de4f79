// What a part is where it names no type.

#[derive(Clone, Copy, Debug)]
pub(crate) enum Fallback {
    TextPlain,
    WholeMessage,
}
