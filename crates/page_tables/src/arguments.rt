//! What the arguments of the command line ask to do with pages.
ghost use Rattle.std.specs.Prelude.{◌≡◌};
ghost use Rattle.page_tables.specs.Arguments.{is_check, task_for, task_of};

use page_programs::asked::Flags;

/// What is done with each page.
#[derive(Clone, Copy)]
pub enum Task {
    /// It is printed with its tables laid out.
    Print,
    /// Where a table is not laid out is printed.
    Check,
    /// Its file is replaced.
    Replace,
}

/// What these options ask for.
pub(crate) fn task_of(flags: Flags) -> Task
    ensures { result ≡ task_of flags }
{
    if flags.check {
        return Task::Check;
    }
    if flags.write {
        return Task::Replace;
    }
    Task::Print
}

/// What is done with the page of this name: standard input can't be replaced, and is printed.
pub(crate) fn task_for(task: Task, name: &str) -> Task
    ensures { result ≡ task_for task name.now }
{
    match task {
        Task::Replace if name == "-" => Task::Print,
        _ => task,
    }
}

/// Whether it is said where tables change.
pub(crate) fn is_check(task: Task) -> bool
    ensures { result ≡ is_check task }
{
    matches!(task, Task::Check)
}
