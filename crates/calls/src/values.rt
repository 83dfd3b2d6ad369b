// The values that calls take and give, as words: a vector is three numbers, a rotation x, y, z, w, a pose its rotation and translation, a
// shape its kind (0 ball, 1 cuboid, 2 capsule, 3 triangle) and nine numbers, of which it takes as many as it has, a vertex its point and
// two origins, a simplex its fields in their order, a location its kind (0 vertex, 1 edge, 2 face, and any other solid), its number, and
// three weights, of which it takes as many as it has.
use crate::words::{Args, FromWords, Output, ToWords};
use projection::TrianglePointLocation;
use shape::{Shape, Vertex};
use simplex::VoronoiSimplex;
use vector::{Pose, Rotation, Vec3};

// ---- read

impl FromWords for Vec3 {
    fn read(args: &mut Args<'_>) -> Vec3 {
        Vec3 {
            x: args.read(),
            y: args.read(),
            z: args.read(),
        }
    }
}

impl FromWords for Pose {
    fn read(args: &mut Args<'_>) -> Pose {
        let rotation = Rotation {
            x: args.read(),
            y: args.read(),
            z: args.read(),
            w: args.read(),
        };
        Pose {
            rotation,
            translation: args.read(),
        }
    }
}

impl FromWords for Shape {
    fn read(args: &mut Args<'_>) -> Shape {
        let kind: u32 = args.read();
        let a: Vec3 = args.read();
        let b: Vec3 = args.read();
        let c: Vec3 = args.read();
        match kind {
            0 => Shape::Ball(a.x),
            1 => Shape::Cuboid(a.x, a.y, a.z),
            2 => Shape::Capsule(a.x, a.y, a.z, b.x, b.y, b.z, c.x),
            _ => Shape::Triangle(a.x, a.y, a.z, b.x, b.y, b.z, c.x, c.y, c.z),
        }
    }
}

impl FromWords for Vertex {
    fn read(args: &mut Args<'_>) -> Vertex {
        Vertex {
            point: args.read(),
            orig1: args.read(),
            orig2: args.read(),
        }
    }
}

impl FromWords for VoronoiSimplex {
    fn read(args: &mut Args<'_>) -> VoronoiSimplex {
        VoronoiSimplex {
            prev_vertices: [args.read(), args.read(), args.read(), args.read()],
            prev_proj: [args.read(), args.read(), args.read()],
            prev_dim: args.read(),
            vertices: [args.read(), args.read(), args.read(), args.read()],
            proj: [args.read(), args.read(), args.read()],
            dim: args.read(),
        }
    }
}

impl FromWords for TrianglePointLocation {
    fn read(args: &mut Args<'_>) -> TrianglePointLocation {
        let kind: u32 = args.read();
        let place: u32 = args.read();
        let w: Vec3 = args.read();
        match kind {
            0 => TrianglePointLocation::OnVertex(place),
            1 => TrianglePointLocation::OnEdge(place, w.x, w.y),
            2 => TrianglePointLocation::OnFace(place, w.x, w.y, w.z),
            _ => TrianglePointLocation::OnSolid,
        }
    }
}

// ---- put

impl ToWords for Vec3 {
    fn put(&self, out: &mut Output) {
        out.put_list(&[self.x, self.y, self.z]);
    }
}

impl ToWords for Vertex {
    fn put(&self, out: &mut Output) {
        out.put_list(&[self.point, self.orig1, self.orig2]);
    }
}

impl ToWords for VoronoiSimplex {
    fn put(&self, out: &mut Output) {
        out.put_list(&self.prev_vertices);
        out.put_list(&self.prev_proj);
        self.prev_dim.put(out);
        out.put_list(&self.vertices);
        out.put_list(&self.proj);
        self.dim.put(out);
    }
}
