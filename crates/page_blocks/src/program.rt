//! What the program does with its arguments, its input and its output.
ghost use Rattle.std.specs.Prelude.{◌≡◌, ◌≢◌, ◌⊎◌, false, ℕ, IfOk, IfErr};
ghost use Rattle.std.specs.Io.KnownBytes.{IsAtEnd};
ghost use Rattle.program_faults.specs.Steps.{AreReads, CantWrite, HasEnded, HasFailed};
ghost use Rattle.program_faults.specs.declared.reasons.Reason.{Reason};
ghost use Rattle.page_programs.specs.Answers.{texts_of};
ghost use Rattle.page_programs.specs.Asked.{flags_of};
ghost use Rattle.page_programs.specs.Cuts.{PrintsAllOf, PrintsPart};
ghost use Rattle.page_programs.specs.Extensions.{extensions_of};
ghost use Rattle.page_programs.specs.Runs.{IsRun};
ghost use Rattle.page_programs.specs.Stops.{IfWrite, IsWrite};
ghost use Rattle.page_programs.specs.declared.stops.Refusal.{Refusal};
ghost use Rattle.page_programs.specs.declared.stops.Stop.{Stop};
ghost use Rattle.page_blocks.specs.Arguments.{form_of, own_options};
ghost use Rattle.page_blocks.specs.Pages.{PrintsBlocks};
ghost use Rattle.page_blocks.specs.Printed.{IsPrintedTo, IsBegunTo};

use crate::arguments::{Form, form_of};
use crate::beginning::PagePrinting;
use crate::help::{HELP, USAGE, VERSION};
use crate::printing::make_title;
use markdown_values::values::Extensions;
use page_programs::arguments::Options;
use page_programs::asked::asked_options;
use page_programs::extensions::EXTENSION_OPTIONS;
use page_programs::files::OpensFiles;
use page_programs::pages::DoesPages;
use page_programs::program::{Command, run_command};
use page_programs::reading::Unread;
use page_programs::stops::Stop;
use page_programs::streams::{Outputs, Streams};
use page_programs::writing::write_text;
use program_faults::{Reason, StepReader, StepWriter};
use std::alloc::Global;

/// Runs the program on its arguments, without its name, and answers its status.
///
/// 0: done. 2: an option that is not known, and nothing is read. 3: a page that can't be opened or
/// read, or memory that is refused, after which it goes on with the next page; or output that can't
/// be written, where it stops. Blocks are written while a page is read, so those at its front may be
/// written of one that can't be read to its end.
pub fn run_program<R, F, W, V>(
    alloc: Global,
    arguments: &[&str],
    streams: &mut Streams<R, F, W, V>,
) -> u8
where
    R: StepReader,
    F: OpensFiles,
    F::File: StepReader,
    W: StepWriter,
    V: StepWriter,
    ensures { IsRun (PrintsBlocks (extensions_of arguments.now) (form_of (flags_of arguments.now))
        W.contents)
        R.remaining R.reads F.opens F.holds F.File.remaining F.File.reads W.writes V.writes W.contents
        (texts_of USAGE.now HELP.now VERSION.now) own_options false false
        arguments.now result streams.old streams.new }
{
    let says = Command {
        usage: USAGE,
        help: HELP,
        version: VERSION,
        options: Options {
            own: &["--json"],
            extensions: EXTENSION_OPTIONS,
        },
    };
    let asked = asked_options(arguments);
    let blocks = Blocks {
        form: form_of(asked.flags),
        extensions: asked.extensions,
    };
    run_command(alloc, says, &blocks, arguments, streams)
}

// What prints the blocks of pages in this form, with these extensions on.
#[derive(Drop)]
struct Blocks {
    form: Form,
    extensions: Extensions,
}

impl<F, W: StepWriter, V> DoesPages<F, W, V> for Blocks {
    ghost use Rattle.std.specs.Prelude.{false};
    ghost use Rattle.page_blocks.specs.Pages.{PrintsBlocks};

    ghost does = { λ it. PrintsBlocks it.extensions it.form W.contents };

    ghost checks = { λ _. false };

    ghost notes = { λ _. false };

    fn do_page<R: StepReader>(
        &self,
        alloc: Global,
        pages: usize,
        name: &str,
        input: &mut R,
        outputs: &mut Outputs<F, W, V>,
    ) -> Result<bool, Stop> {
        let title = make_title(alloc, self.form, pages, name)?;
        let (extensions, form) = (self.extensions, self.form);
        print_page(
            alloc,
            extensions,
            form,
            title.as_str(),
            input,
            &mut outputs.output,
        )?;
        Ok(false)
    }
}

// Writes the title, and the lines of the blocks and lists of the input, in this form.
fn print_page<R: StepReader, W: StepWriter>(
    alloc: Global,
    extensions: Extensions,
    form: Form,
    title: &str,
    input: &mut R,
    output: &mut W,
) -> Result<(), Stop>
    ensures printed { IfOk result (λ _. PrintsAllOf (IsPrintedTo extensions form title.now)
        (R.remaining input.old) (W.contents output.old) (W.contents output.new)) }
    ensures read { IfOk result (λ _. IsAtEnd (R.remaining input.new)) }
    ensures ended { IfOk result (λ _. HasEnded R.reads input.new) }
    ensures begun { IfErr result (λ stop. ¬ IsWrite stop →
        IsBegunTo extensions form title.now (R.remaining input.old) (R.remaining input.new)
        (W.contents output.old) (W.contents output.new)) }
    ensures cut { IfErr result (λ stop. IsWrite stop →
        PrintsPart (IsPrintedTo extensions form title.now) (IsBegunTo extensions form title.now)
        (R.remaining input.old) (R.remaining input.new)
        (W.contents output.old) (W.contents output.new)) }
    ensures reads { (count : ℕ) × AreReads R.reads count input.old input.new }
    ensures failed { IfErr result (λ stop. (why : Reason) → stop ≡ Stop.Read why →
        HasFailed R.reads why input.new ⊎ AreReads R.reads 281474976710655 input.old input.new) }
    ensures taken { IfErr result (λ stop. (offset : ℕ) → stop ≢ Stop.NotText offset) }
    ensures unreplaced { IfErr result (λ stop. (refusal : Refusal) →
        stop ≢ Stop.NotReplaced refusal) }
    ensures refused { IfErr result (λ stop.
        IfWrite stop (λ why. CantWrite W.writes why output.new)) }
{
    write_text(output, title)?;
    let mut unread = Unread::new(alloc);
    let mut printing = PagePrinting::new(alloc, form, extensions);
    loop {
        let has_ended = unread.read_more(input)?;
        let count = printing.print(alloc, &unread.text, has_ended)?;
        write_text(output, printing.text.printer.text.as_str())?;
        if has_ended {
            return Ok(());
        }
        printing.text.printer.text.clear();
        unread.drop_front(count);
    }
}
