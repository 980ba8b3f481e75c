//! Tests of schedules as text (`schedule_text`).

mod lines;
