//! The courses (places and progress) of all threads.

ghost use Rattle.std.specs.Prelude.{◌≡◌, ◌<◌, length, slice_set, IfOk};
ghost use Rattle.tc_core.specs.Core.{first_course};
ghost use Rattle.tc_core.specs.View.{course_at, AreAtStart};

use crate::place::Course;
use std::alloc::{AllocError, Global};
use std::marker::Model;

/// The courses of all threads, in order of number.
#[derive(Drop)]
pub struct Courses {
    courses: Vec<Course>,
}

impl Model for Courses {
    ghost use Rattle.std.specs.Prelude.{List};
    ghost use Rattle.tc_core.specs.Core.{Course as AnyCourse};

    ghost Value = { List AnyCourse };

    ghost view = { λ a. a.courses.items };
}

impl Courses {
    /// So many threads at the start.
    pub fn new(alloc: Global, count: u32) -> Result<Courses, AllocError>
        ensures { IfOk result (AreAtStart first_course count) }
    {
        let mut courses = Vec::new(alloc);
        for _ in 0..count {
            courses.push(Course::new())?;
        }
        Ok(Courses { courses })
    }

    /// The course of a thread.
    pub fn at(&self, thread: u32) -> Course
        ensures { result ≡ course_at self.now thread }
    {
        match self.courses.get(thread as usize) {
            Some(course) => *course,
            None => Course::new(),
        }
    }

    /// Replaces the course of a thread.
    pub fn put(&mut self, thread: u32, course: Course)
        requires { thread < length self.old }
        ensures { self.new ≡ slice_set self.old thread course }
    {
        self.courses[thread as usize] = course;
    }
}
