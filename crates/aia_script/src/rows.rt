//! Rows of the tables of forms: a word, the kinds of the fields that follow it, in their order, and
//! what is made of them. One loop over the kinds reads, and one prints.

/// Reads a field of a kind.
macro_rules! read_field {
    (Decimal $words:ident) => { number_at(&mut $words) };
    (Decimal32 $words:ident) => { n32_at(&mut $words) };
    (VmNumber $words:ident) => { number_at(&mut $words) };
    (Hex $words:ident) => { number_at(&mut $words) };
    (Hex32 $words:ident) => { n32_at(&mut $words) };
    (Hex16 $words:ident) => { number_at(&mut $words) };
    (Bit $words:ident) => { flag_at(&mut $words) };
}

/// Reads what follows the first word of a text by the row of that word, and returns it.
///
/// A field is read by `let .. else`: each `?` would be two calls more, dear to the prover.
macro_rules! read_by_row {
    (($text:ident)
        $($name:literal [$($field:ident: $kind:ident),*] ($($made:tt)*))*) => {
        $(
            if let Some(mut words) = after_name($text, $name) {
                $(let Some($field) = read_field!($kind words) else { return None };)*
                return at_end(&words, $($made)*);
            }
        )*
    };
}

/// Appends a space and a field of a kind.
macro_rules! print_field {
    (Decimal $out:ident $value:ident) => { push_decimal($out, $value) };
    (Decimal32 $out:ident $value:ident) => { push_decimal32($out, $value) };
    (VmNumber $out:ident $value:ident) => { push_decimal($out, $value) };
    (Hex $out:ident $value:ident) => { push_hex($out, $value) };
    (Hex32 $out:ident $value:ident) => { push_hex($out, u64::from($value)) };
    (Hex16 $out:ident $value:ident) => { push_register($out, $value) };
    (Bit $out:ident $value:ident) => { push_decimal32($out, u32::from($value)) };
}

/// Prints a value by its row, or by one of the arms that are given.
macro_rules! print_by_row {
    (($value:expr, $out:ident, $($arms:tt)*)
        $($name:literal [$($field:ident: $kind:ident),*] ($($made:tt)*))*) => {
        match $value {
            $(
                $($made)* => {
                    push_text($out, $name);
                    $(print_field!($kind $out $field);)*
                }
            )*
            $($arms)*
        }
    };
}

pub(crate) use print_by_row;
pub(crate) use print_field;
pub(crate) use read_by_row;
pub(crate) use read_field;
