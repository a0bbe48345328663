// What is looked at.
use crate::counts::Count;
use crate::forms::Form;
use crate::lines;
use std::rt::Stdout;

// The bytes of a packet or of an image, and the form in which they were given.
#[derive(Clone, Copy)]
pub(crate) struct Given<'a> {
    pub(crate) out: Stdout,
    pub(crate) bytes: &'a [u8],
    pub(crate) form: Form,
}

impl Given<'_> {
    // How many bytes were given, and in what form. Of more than the most not all may have been read.
    pub(crate) fn show_given(self, name: &str, most: usize) {
        let form = self.form;
        let count = self.bytes.len();
        lines::gap(self.out);
        if most < count {
            let most = Count(most);
            return lines::print_named(
                self.out,
                name,
                format_args!("more than {most}, given {form}"),
            );
        }
        let count = Count(count);
        lines::print_named(self.out, name, format_args!("{count}, given {form}"));
    }
}
